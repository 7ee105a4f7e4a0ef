//! The entries of Kconfig texts and their expressions, as types.
//!
//! What a reader of Kconfig texts hands over and a tree is built from: configs and choices with the conditions
//! that hold for them, beside how conditions are joined and how a comparison is written. The rules are those of the
//! Linux document kconfig-language, "Menu entries" and "Menu dependencies".
//!
//! A contract sees all of these as plain data. The promise to the crates above: a copy is equal.
#![tactic(auto)]

mod entries;
mod expr;
mod joining;
mod shared;
mod written;

pub use entries::{ChoiceEntry, ConfigEntry, DefaultOf, Entries, Kind, SelectOf, Var};
pub use expr::{Expr, Side, Sign};
pub use joining::{all_of_names, joined, push_each, push_members};
pub use written::{comparison_text, sign_text, trit_text};
