//! Worked rows: what `run` prints and answers over files and sinks in memory, and what the readers of the first forms
//! answer.
//!
//! A row is a Kconfig text, a source and the words, and what they come to. One law joins these rows to those of
//! `worked_rows`; all else is tests.
#![tactic(auto)]

mod laws;

pub use laws::texts_are_read;

#[cfg(test)]
mod cases;
#[cfg(test)]
mod first_kconfig;
#[cfg(test)]
mod first_source;
#[cfg(test)]
mod refusals;
#[cfg(test)]
mod runs;
#[cfg(test)]
mod texts;
