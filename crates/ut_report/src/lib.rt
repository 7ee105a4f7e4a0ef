//! The report of a dead run, as text.
//!
//! So far this crate holds the definitions alone: the lines for each source, the lines under a block that show its word,
//! and the total line; and which texts are the report of a problem, where some questions were not decided. The texts are
//! this project's rule.
#![tactic(auto)]
