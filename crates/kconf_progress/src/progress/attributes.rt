ghost use Rattle.std.specs.Prelude.{◌≡◌, OnOk};
ghost use Rattle.kconf_progress.specs.Kept as spec;

use crate::attributes::{config_with, type_in};
use crate::kinds::{Known, first_type, is_logical, may_be_member};
use crate::open_entries::{ConfigLines, OpenEntry};
use crate::progress::Progress;
use kconf_entries::Kind;
use kconf_statements::ConfigLine;
use std::alloc::{AllocError, Global};
use std::mem;
use ut_logic::Text;

impl Progress {
    /// Whether a type line of the symbol gives the choice that encloses it a type.
    fn gives_type(&self, name: &Text, kind: Kind) -> bool
        ensures { result ≡ spec.gives_type self.now name.now kind }
    {
        self.choice.is_some() && is_logical(kind) && may_be_member(self.known(name).kind)
    }

    /// The last choice has this type, where it has none.
    #[tactic(auto, using(crate::proofs::LastLaws::on_last_append))]
    fn give_type(&mut self, kind: Kind) -> Result<(), AllocError>
        ensures { OnOk result (self.new ≡ record self.old { choices = spec.with_given kind self.old.choices }) }
    {
        if let Some(mut choice) = self.choices.pop() {
            choice.kind = first_type(choice.kind, kind);
            self.choices.push(choice)?;
        }
        Ok(())
    }

    /// A type is noted for a symbol, and for the choice that it stands in.
    fn note_type(&mut self, alloc: Global, name: &Text, kind: Kind) -> Result<(), AllocError>
        ensures { OnOk result (self.new ≡ spec.typed self.old name.now kind) }
    {
        let known = self.known(name);
        if self.gives_type(name, kind) {
            self.give_type(kind)?;
        }
        let noted = Known {
            kind: first_type(known.kind, kind),
            choice: known.choice,
        };
        self.symbols.insert(name.copy(alloc)?, noted)?;
        Ok(())
    }

    /// The type of a line is noted, if it has one.
    fn note_any(&mut self, alloc: Global, name: &Text, kind: Option<Kind>) -> Result<(), AllocError>
        ensures { OnOk result (self.new ≡ spec.noted self.old name.now kind) }
    {
        match kind {
            Some(kind) => self.note_type(alloc, name, kind),
            None => Ok(()),
        }
    }

    /// An attribute of this config, which is being read.
    fn of_config(
        &mut self,
        alloc: Global,
        config: ConfigLines,
        line: ConfigLine,
    ) -> Result<(), AllocError>
        ensures { OnOk result (self.new ≡ spec.of_config self.old config line) }
    {
        self.note_any(alloc, &config.name, type_in(&line))?;
        let config = config_with(config, line)?;
        self.entry = OpenEntry::Config(config);
        Ok(())
    }

    /// The config that is being read, if one is, is taken out.
    fn take_config(&mut self) -> Option<ConfigLines>
        ensures taken { result ≡ spec.config_in self.old.entry }
        ensures left { self.new ≡ spec.without_config self.old self.old.entry }
    {
        match mem::replace(&mut self.entry, OpenEntry::Nothing) {
            OpenEntry::Config(config) => Some(config),
            OpenEntry::Choice(choice) => {
                self.entry = OpenEntry::Choice(choice);
                None
            }
            OpenEntry::Menu => {
                self.entry = OpenEntry::Menu;
                None
            }
            OpenEntry::Comment => {
                self.entry = OpenEntry::Comment;
                None
            }
            OpenEntry::Nothing => None,
        }
    }

    /// An attribute of a config.
    pub(crate) fn config_line(&mut self, alloc: Global, line: ConfigLine) -> Result<(), AllocError>
        ensures { OnOk result (self.new ≡ spec.config_line self.old line self.old.entry) }
    {
        match self.take_config() {
            Some(config) => self.of_config(alloc, config, line),
            None => Ok(()),
        }
    }
}
