//! Worked rows: small trees, each with what the rules of references make of it.
//!
//! The crate has tests alone. A row is a Kconfig text, with `; ` for a line's end, and the order, the cycle or another
//! answer of its tree, worked out by hand.
#![tactic(auto)]

#[cfg(test)]
mod accessors;
#[cfg(test)]
mod answers;
#[cfg(test)]
mod choices;
#[cfg(test)]
mod cycles;
#[cfg(test)]
mod limits;
#[cfg(test)]
mod references;
