//! Files for tests: such that keep the names of their reads, and such that are all too long.

ghost use Rattle.std.specs.Prelude.{None, Some};
ghost use Rattle.ut_base.specs.MemFiles.{map_of};

use std::alloc::Global;
use ut_base::{FileRead, Files, MemFiles, Name};

/// Files in memory, and the names of their reads in order, each followed by a blank.
#[derive(Drop)]
pub struct LoggedFiles {
    pub files: MemFiles,
    pub names: String,
}

impl Files for LoggedFiles {
    ghost held = { λ l. Some (map_of l.files) };

    ghost faults = { λ l. l.files.faults };

    ghost missing = { λ l. l.files.missing };

    ghost long = { λ l. l.files.long };

    fn read(&mut self, alloc: Global, name: &Name, most: u32) -> FileRead {
        let _ = self.names.push_str(name.text());
        let _ = self.names.push(' ');
        self.files.read(alloc, name, most)
    }
}

/// Each file is too long. What they hold isn't known.
#[derive(Drop)]
pub struct LongFiles {
    pub long: u64,
}

impl Files for LongFiles {
    ghost held = { λ _. None };

    ghost faults = { λ _. 0 };

    ghost missing = { λ _. 0 };

    ghost long = { λ l. l.long };

    fn read(&mut self, _alloc: Global, _name: &Name, _most: u32) -> FileRead {
        self.long = self.long.saturating_add(1);
        FileRead::Long
    }
}
