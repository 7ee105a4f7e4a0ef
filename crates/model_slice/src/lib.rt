//! The nodes that a question can depend on.
//!
//! Facts of nodes and the roots of a question go in; the least set of nodes that has the roots and all
//! that its members name comes out, sorted and each node once. That a question looks at these nodes and
//! at no others is this project's rule. A contract sees the list of nodes, and of whatever keeps the facts
//! their list.
//!
//! The promise to the crates above: the nodes are closed under names, and every closed set that has the
//! roots has them all.
#![tactic(auto)]

mod find;
mod indexed;
mod known;
mod laws;
mod met;
mod nodes;
mod reach;
mod room;
mod shared;
#[cfg(test)]
mod tests;

pub use find::FindFact;
pub use indexed::IndexedFacts;
pub use known::are_known;
pub use laws::same_facts_have_one_slice;
pub use nodes::Slice;
pub use reach::{slice, slice_in};
pub use room::SymbolRoom;
