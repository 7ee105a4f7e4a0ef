ghost use Rattle.std.specs.Prelude.{◌≡◌};
ghost use Rattle.kconf_statements.specs.declared.lines.Owner.{Owner};
ghost use Rattle.kconf_progress.specs.OpenEntries as spec;

use kconf_entries::{DefaultOf, Expr, Kind, SelectOf};
use kconf_statements::Owner;
use sqlite_items::Items;
use std::alloc::Global;
use ut_logic::Text;

/// The lines of a config so far. Each condition is that of the line's own `if`.
#[derive(Drop)]
pub struct ConfigLines {
    pub name: Text,
    /// The type of its first type line.
    pub kind: Kind,
    pub depends: Items<Expr>,
    pub prompts: Items<Expr>,
    pub defaults: Items<DefaultOf>,
    pub selects: Items<SelectOf>,
    pub implies: Items<SelectOf>,
    pub modules: bool,
}

/// The lines of a choice so far, but for its dependencies, which its opener has.
#[derive(Drop)]
pub struct ChoiceLines {
    pub kind: Kind,
    pub optional: bool,
    pub prompts: Items<Expr>,
    pub defaults: Items<SelectOf>,
}

/// The entry that is being read.
#[derive(Drop)]
pub enum OpenEntry {
    Nothing,
    Config(ConfigLines),
    Choice(ChoiceLines),
    /// Its conditions are those of the innermost opener.
    Menu,
    /// It has no effect.
    Comment,
}

/// A config before its first attribute.
pub fn new_config(alloc: Global, name: Text) -> ConfigLines
    ensures { result ≡ spec.new_config name }
{
    ConfigLines {
        name,
        kind: Kind::Untyped,
        depends: Items::new(alloc),
        prompts: Items::new(alloc),
        defaults: Items::new(alloc),
        selects: Items::new(alloc),
        implies: Items::new(alloc),
        modules: false,
    }
}

/// A choice before its first attribute.
pub fn new_choice(alloc: Global) -> ChoiceLines
    ensures { result ≡ spec.new_choice }
{
    ChoiceLines {
        kind: Kind::Untyped,
        optional: false,
        prompts: Items::new(alloc),
        defaults: Items::new(alloc),
    }
}

/// Which entry the attributes belong to.
pub fn owner_of(entry: &OpenEntry) -> Owner
    ensures { result ≡ spec.owner_of entry.now }
{
    match entry {
        OpenEntry::Nothing => Owner::Nothing,
        OpenEntry::Config(_) => Owner::Config,
        OpenEntry::Choice(_) => Owner::Choice,
        OpenEntry::Menu => Owner::Menu,
        OpenEntry::Comment => Owner::Comment,
    }
}
