//! The words of a line of a Kconfig text.
//!
//! In goes a logical line, out come its words one after another: unquoted words, quoted words and signs, with the values
//! of macros put in; or that a quoted word or a macro call has no end. Lines without effect have no words. The rules are
//! those of the Linux documents kconfig-language and kconfig-macro-language; what they leave open is said in `specs/` to
//! be this project's.
//!
//! A contract sees a line as its bytes, and values as the list of variables that they are made from. The promise to the
//! crates above: the words are those that are cut off the line one after another.
#![tactic(auto)]

mod calls;
mod cutting;
mod held;
mod laws;
mod no_effect;
mod parts;
mod values;
mod words;

pub use cutting::words_of;
pub use laws::{words_and_blanks_give_the_line_back, words_are_cut_off_one_after_another};
pub use values::Values;
