//! The lines of Kconfig texts.
//!
//! In goes a text, out come its logical lines one after another: physical lines that end in a backslash are joined, and
//! help texts are passed. The rules are those of the Linux document kconfig-language, "Menu attributes" for help texts;
//! what it leaves open is said in `specs/` to be this project's.
//!
//! A contract sees a place in a text as the physical lines that are left, each with its number. The promise to the
//! crates above: each call cuts off the first logical line, or the help text, and leaves what is after it.
#![tactic(auto)]

mod cursor;
mod help_texts;
mod laws;

pub use cursor::{LineCursor, LineText, LogicalLine};
pub use laws::{help_texts_come_off_the_lines_after, lines_are_cut_off_one_after_another};
