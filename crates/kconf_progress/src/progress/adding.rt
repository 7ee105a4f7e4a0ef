ghost use Rattle.std.specs.Prelude.{◌≡◌, IfOk};
ghost use Rattle.kconf_statements.specs.EntryLines.{Before};
ghost use Rattle.kconf_statements.specs.Says as said;
ghost use Rattle.kconf_progress.specs.Progress.{Stands, Steps};
ghost use Rattle.kconf_progress.specs.Kept as spec;

use crate::open_entries::OpenEntry;
use crate::progress::Progress;
use kconf_statements::{EntryLine, Says};
use kconf_words::LineBad;
use std::alloc::Global;
use ut_base::Name;

impl Progress {
    /// An entry begins, or an end word ends one. The answer is the file of a `source` line.
    fn entry_line(
        &mut self,
        alloc: Global,
        line: u32,
        entry: EntryLine,
    ) -> Result<Option<Name>, LineBad>
        ensures step { spec.Leads result self.new (spec.entry_line self.old line entry) }
        ensures file { IfOk result (λ f. f ≡ spec.file_of entry) }
    {
        match entry {
            EntryLine::MainMenu => {
                self.outside_choice()?;
                self.end_entry(alloc)?;
                Ok(None)
            }
            EntryLine::Comment => {
                self.begin(alloc, OpenEntry::Comment)?;
                Ok(None)
            }
            EntryLine::Menu => {
                self.menu(alloc, line)?;
                Ok(None)
            }
            EntryLine::Config(name) => {
                self.config(alloc, name)?;
                Ok(None)
            }
            EntryLine::Choice(name) => {
                self.choice(alloc, line, name)?;
                Ok(None)
            }
            EntryLine::If(condition) => {
                self.condition(alloc, line, condition)?;
                Ok(None)
            }
            EntryLine::End(what) => {
                self.end(alloc, what)?;
                Ok(None)
            }
            EntryLine::Source(file) => {
                self.source(alloc, line)?;
                Ok(Some(file))
            }
        }
    }

    /// What a line says is added. The answer is the file of a `source` line.
    fn step(&mut self, alloc: Global, line: u32, says: Says) -> Result<Option<Name>, LineBad>
        ensures step { spec.Leads result self.new (spec.step self.old line says) }
        ensures file { IfOk result (λ f. f ≡ spec.file_in says) }
    {
        match says {
            Says::Entry(entry) => self.entry_line(alloc, line, entry),
            Says::OfConfig(attribute) => {
                self.config_line(alloc, attribute)?;
                Ok(None)
            }
            Says::OfChoice(attribute) => {
                self.choice_line(attribute)?;
                Ok(None)
            }
            Says::OfMenu(attribute) => {
                self.menu_line(attribute)?;
                Ok(None)
            }
            Says::OfComment => Ok(None),
        }
    }

    /// What a line says is added to the lines before it. The answer is the file of a `source` line.
    ///
    /// Errors: an entry that may not stand there: a second choice of a member, a choice's name used twice, an entry that
    /// a choice does not take, an end word without its opener, too many enclosing lines; and want of memory.
    pub fn add(&mut self, alloc: Global, line: u32, says: Says) -> Result<Option<Name>, LineBad>
        ensures stands { (before : Before) → Stands before self.old → said.IsOf (said.owner_of before) says → Steps (said.applied line before says) result self.new }
        ensures file { IfOk result (λ f. f ≡ spec.file_in says) }
    {
        self.step(alloc, line, says)
    }
}
