//! Texts of lines: a text cut into its lines, what is at the front and at the end of a line, and one
//! form for every grammar by cases on lines.
//!
//! Bytes go in; lines, words, numbers, names and quoted texts come out. A contract sees a `Cursor` as the
//! bytes that are left to read, and a `Tail` as those that are left before what was read. All rules are
//! this project's own.
//!
//! The promise to the crates above: a text says one thing at most, or has one first line outside its
//! grammar, and what is written line by line is read back so (`specs/Grammar`, `proofs/GrammarLaws`).
#![tactic(auto)]

mod cursor;
mod laws;
mod lines;
mod tail;
#[cfg(test)]
mod tests;

pub use cursor::Cursor;
pub use laws::lines_are_read_back;
pub use lines::{split_line, split_whole_line};
pub use tail::Tail;
