ghost use Rattle.std.specs.Prelude.{◌≡◌, ◌++◌, ◌∷◌, [], IfOk, OnOk, OnErr, length, take};
ghost use Rattle.std.specs.Cmp.{partial_equiv_from_equiv};
ghost use Rattle.std.specs.Hash as fed;
ghost use Rattle.kbuild_paths.specs.Steps.{path_alike, path_eq, path_equiv, step_fed, with_path};

use crate::step::Step;
use indexmap::IndexSet;
use std::alloc::{AllocError, Global};
use std::hash::{Hash, Hasher};
use std::marker::Model;

/// The steps from the root text to a file, in order, which contracts see as the list of them.
#[derive(Debug, Drop)]
pub struct Path {
    steps: Vec<Step>,
}

impl Model for Path {
    ghost use Rattle.std.specs.Prelude.{List};
    ghost use Rattle.kbuild_paths.specs.declared.step.Step.{Step};

    ghost Value = { List Step };

    ghost view = { λ p. p.steps.items };
}

impl Path {
    /// A path without a step.
    pub fn new(alloc: Global) -> Path
        ensures { result ≡ [] }
    {
        Path {
            steps: Vec::new(alloc),
        }
    }

    /// The steps.
    pub fn as_slice(&self) -> &[Step]
        ensures { result.now ≡ self.now }
    {
        self.steps.as_slice()
    }

    /// One more step at the end. The only error is want of memory.
    pub fn push(&mut self, step: Step) -> Result<(), AllocError>
        ensures { OnOk result (self.new ≡ self.old ++ step ∷ []) }
    {
        self.steps.push(step)?;
        Ok(())
    }

    /// Copies of these steps at the end. The only error is want of memory.
    pub fn extend(&mut self, alloc: Global, steps: &[Step]) -> Result<(), AllocError>
        ensures { OnOk result (self.new ≡ self.old ++ steps.now) }
    {
        for step in steps {
            self.push(step.copy(alloc)?)?;
        }
        Ok(())
    }

    /// The steps of this path and then those of another. The only error is want of memory.
    pub fn followed_by(&self, alloc: Global, more: &[Step]) -> Result<Path, AllocError>
        ensures { IfOk result (λ path. path ≡ self.now ++ more.now) }
    {
        let mut path = Path::new(alloc);
        path.extend(alloc, self.as_slice())?;
        path.extend(alloc, more)?;
        Ok(path)
    }
}

impl PartialEq for Path {
    ghost eq = { path_eq };

    ghost laws = { partial_equiv_from_equiv path_equiv };

    fn eq(&self, other: &Path) -> bool {
        self.as_slice() == other.as_slice()
    }
}

impl Eq for Path {
    ghost laws = { path_equiv };
}

impl Hash for Path {
    ghost hash_input = { fed.slice step_fed };

    ghost respects_eq = { path_alike };

    fn hash<H: Hasher>(&self, state: &mut H) {
        self.as_slice().hash(state);
    }
}

/// Paths, each once and in order of first mention, which contracts see as the list of them.
#[derive(Drop)]
pub struct Paths {
    set: IndexSet<Path>,
}

impl Model for Paths {
    ghost use Rattle.std.specs.Prelude.{List};
    ghost use Rattle.kbuild_paths.specs.declared.step.Step.{Step};

    ghost Value = { List (List Step) };

    ghost view = { λ p. p.set.keys };
}

impl Paths {
    /// No path.
    pub fn new(alloc: Global) -> Paths
        ensures { result ≡ [] }
    {
        Paths {
            set: IndexSet::new(alloc),
        }
    }

    /// One path without a step. The only error is want of memory.
    pub fn always(alloc: Global) -> Result<Paths, AllocError>
        ensures { IfOk result (λ paths. paths ≡ [] ∷ []) }
    {
        let mut paths = Paths::new(alloc);
        paths.add(Path::new(alloc))?;
        Ok(paths)
    }

    /// The paths.
    pub fn as_slice(&self) -> &[Path]
        ensures { result.now ≡ self.now }
    {
        self.set.as_slice()
    }

    /// The number of paths.
    pub fn len(&self) -> usize
        ensures { result ≡ length self.now }
    {
        self.set.len()
    }

    /// One more path at the end, where no equal one stands there. The only error is want of memory.
    pub fn add(&mut self, path: Path) -> Result<(), AllocError>
        ensures { OnOk result (self.new ≡ with_path self.old path) }
    {
        self.set.insert(path)?;
        Ok(())
    }
}

/// When a file is built: by some of these paths.
#[derive(Drop)]
pub struct FileCond {
    pub paths: Paths,
}
