ghost use Rattle.std.specs.Prelude.{◌≡◌, false, Ok};
ghost use Rattle.kconf_progress.specs.Known.{known_of};
ghost use Rattle.kconf_progress.specs.Kept as spec;

use crate::kinds::{Known, first_choice, is_elsewhere, may_be_member};
use crate::open_entries::{OpenEntry, new_choice, new_config};
use crate::openers::opening;
use crate::progress::Progress;
use kconf_statements::Opens;
use kconf_words::{LineBad, SyntaxKind};
use std::alloc::Global;
use ut_logic::Text;

impl Progress {
    /// Whether an earlier choice has the name.
    fn is_used(&self, name: &Option<Text>) -> bool
        ensures { result ≡ spec.is_used self.now.choice_names name.now }
    {
        match name {
            Some(name) => self.choice_names.contains(name),
            None => false,
        }
    }

    /// A `choice` line.
    pub(crate) fn choice(
        &mut self,
        alloc: Global,
        line: u32,
        name: Option<Text>,
    ) -> Result<(), LineBad>
        ensures { spec.Leads result self.new (spec.choice self.old line name) }
    {
        self.outside_choice()?;
        self.unused_choice(alloc, line, name)
    }

    /// A `choice` line outside of all choices.
    fn unused_choice(&mut self, alloc: Global, line: u32, name: Option<Text>) -> Result<(), LineBad>
        ensures { spec.Leads result self.new (spec.unused_choice self.old line name) }
    {
        if self.is_used(&name) {
            return Err(LineBad::Syntax(SyntaxKind::Choice));
        }
        self.begin_choice(alloc, line, name)
    }

    /// A choice begins.
    fn begin_choice(&mut self, alloc: Global, line: u32, name: Option<Text>) -> Result<(), LineBad>
        requires { spec.is_used self.old.choice_names name ≡ false }
        ensures { spec.Leads result self.new (spec.begun_choice self.old line name) }
    {
        let opener = opening(alloc, Opens::Choice, line);
        self.open_entry(alloc, opener, OpenEntry::Choice(new_choice(alloc)))?;
        self.number_choice(name)
    }

    /// The open choice gets its number, and its name is noted.
    fn number_choice(&mut self, name: Option<Text>) -> Result<(), LineBad>
        requires { spec.is_used self.old.choice_names name ≡ false }
        ensures { spec.Leads result self.new (Ok (spec.with_choice name self.old)) }
    {
        // There are fewer choices than bytes, so the number always fits.
        let Ok(number) = u32::try_from(self.choices.len()) else {
            return Err(LineBad::Oom);
        };
        if let Some(name) = name {
            self.choice_names.insert(name)?;
        }
        self.choice = Some(number);
        Ok(())
    }

    /// A `config` line.
    pub(crate) fn config(&mut self, alloc: Global, name: Text) -> Result<(), LineBad>
        ensures { spec.Leads result self.new (spec.config self.old name) }
    {
        match self.choice {
            Some(number) => self.config_in_choice(alloc, name, number),
            None => {
                self.begin(alloc, OpenEntry::Config(new_config(alloc, name)))?;
                Ok(())
            }
        }
    }

    /// A `config` line between `choice` and `endchoice`.
    fn config_in_choice(&mut self, alloc: Global, name: Text, number: u32) -> Result<(), LineBad>
        ensures { spec.Leads result self.new (spec.in_choice self.old name number (known_of self.old.symbols name)) }
    {
        let known = self.known(&name);
        if may_be_member(known.kind) && is_elsewhere(number, known.choice) {
            return Err(LineBad::Syntax(SyntaxKind::Choice));
        }
        let noted = Known {
            kind: known.kind,
            choice: first_choice(known.choice, Some(number)),
        };
        self.symbols.insert(name.copy(alloc)?, noted)?;
        self.begin(alloc, OpenEntry::Config(new_config(alloc, name)))?;
        Ok(())
    }
}
