//! What tests share: tables of rows in one text, and files in memory.
//!
//! A table is one literal, and its rows are taken apart while the test runs, so that the proof of a test does not grow
//! with its rows. How a row is written is this project's rule. A contract sees nothing of it.
//!
//! The promise to the crates above: none. What stands in a table is shown by the calls that the tests make.
#![tactic(auto)]

mod escapes;
mod files;
mod rows;

pub use escapes::unescaped;
pub use files::files_of;
pub use rows::{check_blocks, check_lines};
