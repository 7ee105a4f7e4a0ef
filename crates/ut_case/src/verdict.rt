use crate::question::{Ask, Class};
use crate::whole::Whole;
use log_check::Derivation;

/// What is true of a block, with what shows it.
#[derive(Drop)]
pub enum Verdict {
    /// Off in every valid configuration and environment: the derivation refutes that it is selected.
    Dead {
        class: Class,
        why: Derivation,
    },
    /// On wherever its parent is, and on in this whole: the derivation refutes that it is dropped.
    Undead {
        class: Class,
        why: Derivation,
        on: Whole,
    },
    /// On in the one whole; in the other its parent is on, and it isn't.
    Live {
        on: Whole,
        off: Whole,
    },
    /// The question was not decided within so many steps. Where it is the one on dropping, the block is on in the whole.
    Undecided {
        ask: Ask,
        steps: u64,
        on: Option<Whole>,
    },
}
