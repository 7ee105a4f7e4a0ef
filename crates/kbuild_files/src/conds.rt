ghost use Rattle.std.specs.Prelude.{◌≡◌, ◌++◌, [], IfOk, OnOk, OnErr, ◌≤◌, length, option_map, MatchOption};
ghost use Rattle.kbuild_paths.specs.Paths.{names_nothing, paths_named, paths_of, with_way};
ghost use Rattle.kbuild_files.specs.Tables.{IsPlace, PushesFile, count_of, files_of, or_always, place_in};

use crate::source::file_of;
use indexmap::IndexSet;
use kbuild_paths::{FileCond, Path, Paths};
use std::alloc::{AllocError, Global};
use std::marker::Model;
use ut_base::Name;

/// The files that Kbuild texts name, in order of first mention, each with its paths.
///
/// A contract sees the folder of the root text and the list of the files.
#[derive(Drop)]
pub struct FileConds {
    folder: Vec<u8>,
    names: IndexSet<Vec<u8>>,
    /// The condition of each name.
    conds: Vec<FileCond>,
    /// What is answered for a source that no text names: one path without a step.
    always: FileCond,
}

impl Model for FileConds {
    ghost use Rattle.std.specs.Prelude.{◌≡◌, [], ◌∷◌, length};
    ghost use Rattle.kbuild_paths.specs.Paths.{Conds};
    ghost use Rattle.kbuild_files.specs.Tables.{files_of};

    ghost Value = { Conds };

    ghost view = { λ c. record { folder = c.folder.items; files = files_of c.names.keys c.conds.items } };

    ghost invariant = { λ c. (length c.conds.items ≡ length c.names.keys) × (c.always.paths ≡ [] ∷ []) };
}

impl FileConds {
    /// No file is named. The only error is want of memory.
    pub fn nothing(alloc: Global) -> Result<FileConds, AllocError>
        ensures { IfOk result (λ c. c ≡ names_nothing) }
    {
        FileConds::in_folder(alloc, Vec::new(alloc))
    }

    /// No file is named, relative to a folder, which is empty or ends with `/`. The only error is want of memory.
    pub fn in_folder(alloc: Global, folder: Vec<u8>) -> Result<FileConds, AllocError>
        ensures { IfOk result (λ c. c ≡ record { folder = folder.items; files = [] }) }
    {
        let paths = Paths::always(alloc)?;
        Ok(FileConds {
            folder,
            names: IndexSet::new(alloc),
            conds: Vec::new(alloc),
            always: FileCond { paths },
        })
    }

    /// One more way to the file with this name. The answer is the number of its paths. The only error is want of memory.
    pub fn add(&mut self, alloc: Global, name: &[u8], path: Path) -> Result<usize, AllocError>
        ensures added { OnOk result (self.new ≡ record self.old { files = with_way self.old.files name.now path }) }
        ensures count { IfOk result (λ n. n ≡ count_of self.new.files name.now) }
    {
        match place_of(&self.names, name) {
            Some(place) => {
                let cond = &mut self.conds[place];
                cond.paths.add(path)?;
                Ok(cond.paths.len())
            }
            None => {
                let name = Vec::from_slice(alloc, name)?;
                push_file(alloc, &mut self.names, &mut self.conds, name, path)?;
                Ok(1)
            }
        }
    }

    /// The condition of the file with this name.
    pub fn named(&self, name: &[u8]) -> Option<&FileCond>
        ensures { option_map (λ cond. cond.now.paths) result ≡ paths_named self.now.files name.now }
    {
        match place_of(&self.names, name) {
            Some(place) => Some(&self.conds[place]),
            None => None,
        }
    }

    /// The names of the files in order of first mention, and the condition of each at the same place.
    pub fn files(&self) -> (&[Vec<u8>], &[FileCond])
        ensures files { files_of result.0.now result.1.now ≡ self.now.files }
        ensures lengths { length result.1.now ≡ length result.0.now }
    {
        (self.names.as_slice(), self.conds.as_slice())
    }
}

/// The place of a name.
fn place_of(names: &IndexSet<Vec<u8>>, name: &[u8]) -> Option<usize>
    ensures { MatchOption result (length names.now.keys ≤ place_in names.now.keys name.now) (λ place. IsPlace names.now.keys name.now place) }
{
    names.get_index_of(name)
}

/// One more file, with one path. An error leaves both lists as they were.
fn push_file(
    alloc: Global,
    names: &mut IndexSet<Vec<u8>>,
    conds: &mut Vec<FileCond>,
    name: Vec<u8>,
    path: Path,
) -> Result<(), AllocError>
    requires { length names.old.keys ≤ place_in names.old.keys name.items }
    ensures ok { OnOk result (PushesFile names.old.keys conds.old.items name path names.new.keys conds.new.items) }
    ensures names { OnErr result (names.new.keys ≡ names.old.keys) }
    ensures conds { OnErr result (conds.new.items ≡ conds.old.items) }
{
    let mut paths = Paths::new(alloc);
    paths.add(path)?;
    conds.push(FileCond { paths })?;
    match names.insert(name) {
        Ok(_) => Ok(()),
        Err(_) => {
            conds.pop();
            Err(AllocError)
        }
    }
}

/// The condition of the file that a source belongs to.
fn of_source<'a>(conds: &'a FileConds, source: &[u8]) -> Option<&'a FileCond>
    ensures { paths_of conds.now source.now ≡ or_always (option_map (λ cond. cond.now.paths) result) }
{
    match file_of(conds.folder.as_slice(), source) {
        Some(file) => conds.named(file),
        None => None,
    }
}

/// The paths that name the source, or one path without a step where none does.
pub fn cond_of<'a>(conds: &'a FileConds, name: &Name) -> &'a FileCond
    ensures { result.now.paths ≡ paths_of conds.now name.now }
{
    match of_source(conds, name.text().as_bytes()) {
        Some(cond) => cond,
        None => &conds.always,
    }
}
