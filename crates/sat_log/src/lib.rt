//! Trails over a clause form: their moves, the laws over their runs, and a search with a log.
//!
//! A clause form goes in, and out comes its least model, a derivation that refutes it, or that the
//! steps ran out. A contract sees a trail as its clause form, derived lines, set literals with their
//! marks, and steps. The moves are those of a search that learns clauses; what is decided, the order
//! of variables, and what counts as a step are this project's own rules.
//!
//! The promise to the crates above: a run that is at a model holds the least model, and no form of n
//! variables is spent at 2^(n + 1) steps or more.
#![tactic(auto)]

mod analysis;
mod codes;
mod cutting;
mod laws;
mod links;
mod marks;
mod solving;
mod store;
mod trail;
mod values;
mod visiting;
mod waiting;

pub use laws::{model_is_least, number_falls, run_goes_on, steps_are_bounded};
pub use marks::Mark;
pub use solving::{Answer, solve};
pub use trail::Trail;
