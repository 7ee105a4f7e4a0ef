ghost use Rattle.std.specs.Prelude.{◌≡◌, OnOk};
ghost use Rattle.kconf_progress.specs.Kept as spec;

use crate::attributes::choice_with;
use crate::open_entries::{ChoiceLines, OpenEntry};
use crate::progress::Progress;
use kconf_entries::Expr;
use kconf_statements::{ChoiceLine, MenuLine};
use std::alloc::AllocError;
use std::mem;

impl Progress {
    /// A dependency of the innermost enclosing line.
    #[tactic(auto, using(crate::proofs::LastLaws::on_last_append))]
    fn add_condition(&mut self, condition: Expr) -> Result<(), AllocError>
        ensures { OnOk result (self.new ≡ spec.with_depends self.old condition) }
    {
        if let Some(mut opener) = self.openers.pop() {
            opener.depends.push(condition)?;
            self.openers.push(opener)?;
        }
        Ok(())
    }

    /// A `visible if` condition of the innermost enclosing line.
    #[tactic(auto, using(crate::proofs::LastLaws::on_last_append))]
    fn add_visible(&mut self, condition: Expr) -> Result<(), AllocError>
        ensures { OnOk result (self.new ≡ spec.with_visible self.old condition) }
    {
        if let Some(mut opener) = self.openers.pop() {
            opener.visible.push(condition)?;
            self.openers.push(opener)?;
        }
        Ok(())
    }

    /// An attribute of this choice, which is being read.
    fn of_choice(&mut self, choice: ChoiceLines, line: ChoiceLine) -> Result<(), AllocError>
        ensures { OnOk result (self.new ≡ spec.of_choice self.old choice line) }
    {
        let (choice, condition) = choice_with(choice, line)?;
        self.entry = OpenEntry::Choice(choice);
        match condition {
            Some(condition) => self.add_condition(condition),
            None => Ok(()),
        }
    }

    /// The choice that is being read, if one is, is taken out.
    fn take_choice(&mut self) -> Option<ChoiceLines>
        ensures taken { result ≡ spec.choice_in self.old.entry }
        ensures left { self.new ≡ spec.without_choice self.old self.old.entry }
    {
        match mem::replace(&mut self.entry, OpenEntry::Nothing) {
            OpenEntry::Choice(choice) => Some(choice),
            OpenEntry::Config(config) => {
                self.entry = OpenEntry::Config(config);
                None
            }
            OpenEntry::Menu => {
                self.entry = OpenEntry::Menu;
                None
            }
            OpenEntry::Comment => {
                self.entry = OpenEntry::Comment;
                None
            }
            OpenEntry::Nothing => None,
        }
    }

    /// An attribute of a choice.
    pub(crate) fn choice_line(&mut self, line: ChoiceLine) -> Result<(), AllocError>
        ensures { OnOk result (self.new ≡ spec.choice_line self.old line self.old.entry) }
    {
        match self.take_choice() {
            Some(choice) => self.of_choice(choice, line),
            None => Ok(()),
        }
    }

    /// An attribute of a menu.
    pub(crate) fn menu_line(&mut self, line: MenuLine) -> Result<(), AllocError>
        ensures { OnOk result (self.new ≡ spec.of_menu self.old line) }
    {
        match line {
            MenuLine::DependsOn(condition) => self.add_condition(condition),
            MenuLine::VisibleIf(condition) => self.add_visible(condition),
        }
    }
}
