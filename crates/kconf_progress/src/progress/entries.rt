ghost use Rattle.std.specs.Prelude.{◌≡◌, OnOk, Ok};
ghost use Rattle.kconf_progress.specs.Kept as spec;

use crate::ended::{choice_entry, config_entry};
use crate::open_entries::OpenEntry;
use crate::openers::{OpenLine, opening};
use crate::progress::Progress;
use kconf_entries::Expr;
use kconf_statements::Opens;
use kconf_words::{LineBad, SyntaxKind};
use std::alloc::{AllocError, Global};
use std::mem;
use ut_base::Limit;

/// The most menus, ifs and choices that are open at one line.
const MOST_OPEN: usize = 64;

impl Progress {
    /// The entry that is being read ends.
    pub(crate) fn end_entry(&mut self, alloc: Global) -> Result<(), AllocError>
        ensures { OnOk result (self.new ≡ spec.ending self.old) }
    {
        match mem::replace(&mut self.entry, OpenEntry::Nothing) {
            OpenEntry::Config(lines) => {
                let entry = config_entry(alloc, &self.openers, self.choice, lines)?;
                self.configs.push(entry)?;
            }
            OpenEntry::Choice(lines) => {
                let entry = choice_entry(alloc, &self.openers, lines)?;
                self.choices.push(entry)?;
            }
            OpenEntry::Nothing => {}
            OpenEntry::Menu => {}
            OpenEntry::Comment => {}
        }
        Ok(())
    }

    /// Another entry begins.
    pub(crate) fn begin(&mut self, alloc: Global, entry: OpenEntry) -> Result<(), AllocError>
        ensures { OnOk result (self.new ≡ spec.beginning self.old entry) }
    {
        self.end_entry(alloc)?;
        self.entry = entry;
        Ok(())
    }

    /// An entry that no choice takes.
    pub(crate) fn outside_choice(&self) -> Result<(), LineBad>
        ensures { spec.Leads result self.now (spec.outside_choice self.now (Ok self.now)) }
    {
        if self.choice.is_some() {
            return Err(LineBad::Syntax(SyntaxKind::Choice));
        }
        Ok(())
    }

    /// A menu, `if` or choice opens with this entry.
    pub(crate) fn open_entry(
        &mut self,
        alloc: Global,
        opener: OpenLine,
        entry: OpenEntry,
    ) -> Result<(), LineBad>
        ensures { spec.Leads result self.new (spec.opened self.old opener entry) }
    {
        if self.open_count >= MOST_OPEN {
            return Err(LineBad::Depth(Limit::Nesting));
        }
        self.begin(alloc, entry)?;
        self.openers.push(opener)?;
        self.open_count += 1;
        Ok(())
    }

    /// A `menu` line.
    pub(crate) fn menu(&mut self, alloc: Global, line: u32) -> Result<(), LineBad>
        ensures { spec.Leads result self.new (spec.menu self.old line) }
    {
        self.outside_choice()?;
        self.open_entry(alloc, opening(alloc, Opens::Menu, line), OpenEntry::Menu)
    }

    /// An `if` line.
    pub(crate) fn condition(
        &mut self,
        alloc: Global,
        line: u32,
        condition: Expr,
    ) -> Result<(), LineBad>
        ensures { spec.Leads result self.new (spec.condition self.old line condition) }
    {
        let mut opener = opening(alloc, Opens::If, line);
        opener.depends.push(condition)?;
        self.open_entry(alloc, opener, OpenEntry::Nothing)
    }
}
