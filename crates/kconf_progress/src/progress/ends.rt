ghost use Rattle.std.specs.Prelude.{◌≡◌, ◌∷◌, ℕ, OnOk, None};
ghost use Rattle.kconf_statements.specs.EntryLines.{At, Before, Entry};
ghost use Rattle.kconf_statements.specs.Enclosing as enclosing;
ghost use Rattle.kconf_progress.specs.Progress.{Stands};
ghost use Rattle.kconf_progress.specs.Kept as spec;

use crate::openers::{is_ended_by, opening};
use crate::progress::Progress;
use kconf_statements::Opens;
use kconf_words::{LineBad, SyntaxKind};
use std::alloc::{AllocError, Global};

impl Progress {
    /// Whether an end word ends the innermost enclosing line.
    fn ends_innermost(&self, what: Opens) -> bool
        ensures { result ≡ spec.ends what (spec.innermost self.now.openers) }
    {
        match self.openers.last() {
            Some(opener) => is_ended_by(what, opener.opens),
            None => false,
        }
    }

    /// An end word.
    pub(crate) fn end(&mut self, alloc: Global, what: Opens) -> Result<(), LineBad>
        ensures { spec.Leads result self.new (spec.end self.old what) }
    {
        if !self.ends_innermost(what) {
            return Err(LineBad::Syntax(SyntaxKind::End));
        }
        self.end_entry(alloc)?;
        self.openers.pop();
        self.open_count = self.open_count.saturating_sub(1);
        if what == Opens::Choice {
            self.choice = None;
        }
        Ok(())
    }

    /// The lines of a sourced text follow.
    pub(crate) fn source(&mut self, alloc: Global, line: u32) -> Result<(), AllocError>
        ensures { OnOk result (self.new ≡ spec.source self.old line) }
    {
        self.end_entry(alloc)?;
        self.openers.push(opening(alloc, Opens::Source, line))?;
        Ok(())
    }

    /// The innermost enclosing line ends.
    fn end_source(&mut self, alloc: Global) -> Result<(), AllocError>
        ensures { OnOk result (self.new ≡ spec.sourced self.old) }
    {
        self.end_entry(alloc)?;
        self.openers.pop();
        Ok(())
    }

    /// The lines of a sourced text end, of which no entry is open any more.
    pub fn sourced(&mut self, alloc: Global) -> Result<(), AllocError>
        ensures { OnOk result ((before : Before) (line : ℕ) → Stands before self.old
            → enclosing.unclosed (enclosing.enclosing before) ≡ None → Stands (At line Entry.Sourced ∷ before) self.new) }
    {
        self.end_source(alloc)
    }
}
