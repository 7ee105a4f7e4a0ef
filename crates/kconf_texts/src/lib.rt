//! Kconfig texts: the lines of a root text and of the texts that it sources, one after another.
//!
//! Here stand the definition of what reading comes to, worked texts that the prover computes from it, and why texts are
//! not read. The rules are those of the Linux document kconfig-language.
//!
//! A contract sees reading as a plan: which files are taken, one after another, and what comes of their bytes.
#![tactic(auto)]

mod bad;
mod laws;
pub mod worked;

pub use bad::KconfBad;
pub use laws::{lines_are_read_in_order, lines_that_are_not_refused_begin_an_accepted_text};
