//! The expressions that words of a Kconfig line are.
//!
//! In go the words of a line, out comes the expression that they begin with, and the words after it. The grammar is that
//! of the Linux document kconfig-language, "Menu dependencies"; what stands for a word that is no name, and the text of
//! an outer condition, are this project's.
//!
//! A contract sees words and expressions as plain data. The promise to the crates above: what is read is what the
//! grammar says, and where it is not read, the grammar has no expression there or one with too many signs.
#![tactic(auto)]

mod joints;
mod laws;
mod lengths;
mod operands;
mod reader;
mod roles;

pub use laws::expressions_follow_the_grammar;
pub use lengths::expression_len;
pub use reader::{ExprBad, read_expression};
