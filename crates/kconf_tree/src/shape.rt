use kconf_entries::{DefaultOf, Expr, Kind, SelectOf};
use sqlite_items::Items;
use ut_logic::Text;

/// What a symbol counts as when values are calculated.
#[derive(Clone, Copy, Debug)]
pub enum Counts {
    Bool,
    Tristate,
    Neither,
}

/// A symbol with its properties, gathered over all its places in the order of the text.
#[derive(Drop)]
pub struct Symbol {
    pub name: Text,
    /// Its first type.
    pub kind: Kind,
    /// The number of the choice that it is a member of.
    pub member_of: Option<u32>,
    /// The dependency of each place.
    pub places: Items<Expr>,
    /// The full condition of each prompt.
    pub prompts: Items<Expr>,
    pub defaults: Items<DefaultOf>,
    pub selects: Items<SelectOf>,
    pub implies: Items<SelectOf>,
}

/// A choice with its properties.
#[derive(Drop)]
pub struct Choice {
    /// Its own type, else that of its first typed member, else bool.
    pub kind: Kind,
    /// The numbers of its members, rising.
    pub members: Items<u32>,
    /// The full condition of each prompt.
    pub prompts: Items<Expr>,
    pub defaults: Items<SelectOf>,
    pub optional: bool,
}

/// A select or an imply as its target sees it.
#[derive(Clone, Copy, Debug)]
pub struct Selector {
    /// The number of the symbol that selects or implies.
    pub by: u32,
    /// Its place among the selects, or the implies, of that symbol, from 0.
    pub nth: usize,
}
