/// The cases over which a question is asked; each family holds those after it.
#[derive(Clone, Copy, Debug, PartialEq, Eq)]
pub enum Family {
    /// Every macro starts in any state.
    Code,
    /// The configuration keeps the rules of the Kconfig texts; undeclared names may be read as y.
    Kconfig,
    /// The configuration is valid.
    Whole,
}

/// What is asked of a block.
#[derive(Clone, Copy, Debug, PartialEq, Eq)]
pub enum Ask {
    /// Whether it can be on.
    Selected,
    /// Whether it can be off while its parent is on.
    Dropped,
}

/// A block of a source: the source's number from 0, and the block's from 1.
#[derive(Clone, Copy, Debug, PartialEq, Eq)]
pub struct BlockId {
    pub file: u32,
    pub block: u32,
}

/// A question on a block over a family of cases.
#[derive(Clone, Copy, Debug, PartialEq, Eq)]
pub struct Question {
    pub family: Family,
    pub ask: Ask,
    pub block: BlockId,
}

/// What makes a block dead or undead: the least that has to be known for it.
#[derive(Clone, Copy, Debug, PartialEq, Eq)]
pub enum Class {
    /// The code alone.
    Code,
    /// The rules of the Kconfig texts.
    Kconfig,
    /// That some name is declared nowhere.
    Missing,
    /// A class question was not decided within so many steps.
    Unclassified { steps: u64 },
}
