//! Resolution, a checker of derivations, and the text of a derivation.
//!
//! A clause form and a derivation go in, and out comes whether the derivation refutes the form, or
//! its first line that is wrong; or its lines are taken one by one. A derivation is also written as text
//! and read back. A contract sees a clause as its list of literals, a derivation as its list of lines, and
//! `KnownClauses` as the list of clauses that the next line may cite. Resolution is the rule of
//! propositional logic; chains, numbers and the text are this project's own.
//!
//! The promise to the crates above: a clause form with an accepted derivation has no model.
#![tactic(auto)]

mod checking;
mod derivations;
mod known;
mod laws;
mod pieces;
mod resolving;
mod running;
mod shared;
mod steps;
#[cfg(test)]
mod tests;
mod texts;
mod writing;

pub use checking::{Checked, check};
pub use derivations::{Chain, Derivation, DerivationLine, PivotOf};
pub use known::KnownClauses;
pub use laws::{refuted_no_model, taken_lines_refute};
pub use resolving::resolve;
pub use steps::read_step;
pub use texts::{TextLineBad, read_derivation};
pub use writing::{derivation_text, push_step};
