//! The words of a line of a Kconfig text as types, and what a word is: a constant, a name or a literal.
//!
//! A word goes in as its bytes without quote marks, with how it stood in the line; out comes what it stands for. Beside
//! them stand the faults that a line may have. The rules are those of the Linux document kconfig-language, "Menu
//! dependencies"; what counts as a literal is this project's.
//!
//! A contract sees a word as plain data. The promise to the crates above is that each of these kinds has one meaning.
#![tactic(auto)]

mod kinds;
mod line_bad;
mod line_words;

pub use kinds::{constant_of, is_literal, is_name, is_word, text_of};
pub use line_bad::{LineBad, SyntaxKind};
pub use line_words::{Form, LineWord};
