use complete_conf::Config;
use ut_logic::{Assign, Sequence};

/// A value for all that a configuration speaks of.
#[derive(Drop)]
pub enum Values {
    /// The values of a tree's symbols, the modes of its choices, and the truths of all outer conditions of the problem.
    Tree(Config),
    /// The truths of the names of a model text, by their places.
    Names(Sequence<bool>),
}

/// A whole configuration and an environment.
#[derive(Drop)]
pub struct Whole {
    pub values: Values,
    /// The true ones of the starts, truths, pieces and lines of all sources; over a model text also the outer conditions
    /// that are true.
    pub env: Assign,
}
