ghost use Rattle.std.specs.Prelude.{◌≡◌, IfOk};
ghost use Rattle.std.specs.Cmp.{partial_equiv_from_equiv};
ghost use Rattle.kbuild_paths.specs.Steps.{step_alike, step_eq, step_equiv, step_fed};

use std::alloc::{AllocError, Global};
use std::hash::{Hash, Hasher};
use ut_text::Text;

/// One step of the way to a file.
///
/// Rule: Linux kbuild/makefiles, "Built-in object goals"; that other conditions are free is this project's.
#[derive(Debug, Drop)]
pub enum Step {
    /// The symbol with this name is not n.
    On(Text),

    /// A condition that is not looked into: the words of a conditional line, or the end of a variable's name.
    Free(Text),
}

impl Step {
    /// An equal step. The only error is want of memory.
    pub fn copy(&self, alloc: Global) -> Result<Step, AllocError>
        ensures { IfOk result (λ step. step ≡ self.now) }
    {
        match self {
            Step::On(name) => Ok(Step::On(name.copy(alloc)?)),
            Step::Free(text) => Ok(Step::Free(text.copy(alloc)?)),
        }
    }
}

impl PartialEq for Step {
    ghost eq = { step_eq };

    ghost laws = { partial_equiv_from_equiv step_equiv };

    fn eq(&self, other: &Step) -> bool {
        match (self, other) {
            (Step::On(name), Step::On(other)) => name.text() == other.text(),
            (Step::Free(text), Step::Free(other)) => text.text() == other.text(),
            (Step::On(_), Step::Free(_)) | (Step::Free(_), Step::On(_)) => false,
        }
    }
}

impl Eq for Step {
    ghost laws = { step_equiv };
}

impl Hash for Step {
    ghost hash_input = { step_fed };

    ghost respects_eq = { step_alike };

    fn hash<H: Hasher>(&self, state: &mut H) {
        match self {
            Step::On(name) => name.hash(state),
            Step::Free(text) => text.hash(state),
        }
    }
}
