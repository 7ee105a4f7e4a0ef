ghost use Rattle.std.specs.Prelude.{◌≡◌};
ghost use Rattle.kconf_progress.specs.Known.{known_of};
ghost use Rattle.kconf_statements.specs.EntryLines.{Before};
ghost use Rattle.kconf_statements.specs.Enclosing as enclosing;
ghost use Rattle.kconf_statements.specs.Says as said;
ghost use Rattle.kconf_progress.specs.Progress.{Stands};
ghost use Rattle.kconf_progress.specs.OpenEntries as open_entries;
ghost use Rattle.kconf_progress.specs.Openers as openers;

use crate::kinds::Known;
use crate::open_entries::owner_of;
use crate::openers::unclosed;
use crate::progress::Progress;
use kconf_entries::Kind;
use kconf_statements::Owner;
use ut_logic::Text;

impl Progress {
    /// The kind of the entry that is being read.
    fn entry_kind(&self) -> Owner
        ensures { result ≡ open_entries.owner_of self.now.entry }
    {
        owner_of(&self.entry)
    }

    /// Which entry the attributes belong to.
    pub fn owner(&self) -> Owner
        ensures { (before : Before) → Stands before self.now → result ≡ said.owner_of before }
    {
        self.entry_kind()
    }

    /// The line of the outermost opener after the last `source` line.
    fn outermost(&self) -> Option<u32>
        ensures { result ≡ openers.unclosed self.now.openers }
    {
        unclosed(&self.openers)
    }

    /// The line of the outermost entry that is open in the innermost text.
    pub fn unclosed(&self) -> Option<u32>
        ensures { (before : Before) → Stands before self.now → result ≡ enclosing.unclosed (enclosing.enclosing before) }
    {
        self.outermost()
    }

    /// What is known of a symbol.
    pub(crate) fn known(&self, name: &Text) -> Known
        ensures { result ≡ known_of self.now.symbols name.now }
    {
        match self.symbols.get(name) {
            Some(known) => *known,
            None => Known {
                kind: Kind::Untyped,
                choice: None,
            },
        }
    }
}
