//! Bytes and texts as the readers of Kconfig, Kbuild and C share them: texts and their order, classes of bytes,
//! physical lines, decimal numbers.
//!
//! What a letter, a name and a line end are is said by ISO C and Linux kconfig-language; where they leave
//! something open, the definition in `specs/` says that the rule is this project's. A contract sees a `Text`
//! and a slice of bytes as `Bytes`, the list of its bytes, and a text of lines as `lines_of` its bytes.
//!
//! The promise to the crates above is that each of these words has one meaning. Two more words stand in
//! `specs/` alone: the first wrong line of a text, and `>>=` for steps that may fail.
#![tactic(auto)]

mod byte_classes;
mod decimals;
mod lines;
mod runs;
mod shared;
#[cfg(test)]
mod tests;
mod text;

pub use byte_classes::{
    are_name_bytes, begins_names, is_blank, is_capital, is_digit, is_hex_digit, is_letter,
    is_name_byte,
};
pub use decimals::{numeral, split_number};
pub use lines::{line_size, split_line};
pub use runs::{blanks, digits_len, name_len, unblanked};
pub use text::Text;
