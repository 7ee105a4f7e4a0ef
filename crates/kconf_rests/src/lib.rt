//! What may stand after the first words of a line of a Kconfig text: a text, a name, a path, an expression, a value, a
//! condition of the line's own.
//!
//! In go the words that are left, out comes what they say, or the first fault among them. The rules are those of the
//! Linux document kconfig-language, "Menu entries" and "Menu attributes"; the kinds of faults and their order are this
//! project's.
//!
//! A contract sees words and expressions as plain data. The promise to the crates above: each reader gives what its
//! definition gives, refusals included.
#![tactic(auto)]

mod conditions;
mod expressions;
mod names;
mod values;

pub use conditions::{a_condition, a_prompt, a_prompt_or_none, a_target, two_words};
pub use expressions::an_expression;
pub use names::{a_name, a_name_or_nothing, a_path, a_text, is_modules, nothing};
pub use values::a_value;
