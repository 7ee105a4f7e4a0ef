use ut_logic::{Clause, Sequence};

/// A known clause to resolve with, by its number, and the variable to resolve on.
#[derive(Clone, Copy, Debug, PartialEq, Eq)]
pub struct PivotOf {
    pub pivot: u64,
    pub clause: u64,
}

/// A known clause, and what it is resolved with, one after another.
///
/// Known clauses are numbered from 1: those of the clause form, then the results of the lines so far.
#[derive(Debug, Drop)]
pub struct Chain {
    pub first: u64,
    pub pairs: Sequence<PivotOf>,
}

/// A clause and the chain that gives it.
#[derive(Debug, Drop)]
pub struct DerivationLine {
    pub result: Clause,
    pub chain: Chain,
}

/// Lines, each derived from the clause form and the lines before it.
#[derive(Debug, Drop)]
pub struct Derivation {
    pub lines: Sequence<DerivationLine>,
}
