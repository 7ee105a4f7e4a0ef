use crate::question::{Ask, Class};

/// The word of a report on a block.
#[derive(Clone, Copy, Debug, PartialEq, Eq)]
pub enum Word {
    /// Off in every valid configuration and environment.
    Dead(Class),
    /// On wherever its parent is, and somewhere on.
    Undead(Class),
    /// Neither.
    Live,
    /// The question was not decided within the steps of the run.
    Undecided(Ask),
}
