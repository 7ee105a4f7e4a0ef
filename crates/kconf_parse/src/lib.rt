//! Kconfig texts.
//!
//! In goes the name of a root text, out come the entries of it and of the texts that it sources, in order, whose
//! conditions hold the inherited ones, or the first refusal in reading order. The rules are those of the Linux document
//! kconfig-language.
//!
//! The way of a text: `kconf_lines` (physical lines joined, help texts passed), `kconf_cut` (lines into words, with the
//! values of macros put in), `kconf_exprs`, `kconf_rests` and `kconf_statements` (what the words say), `kconf_progress`
//! (what that does to the entries so far); here each line is read in its turn, and each sourced text in the place of its
//! `source` line. What texts come to is defined in `kconf_texts`.
//!
//! A contract sees a text as its bytes and an entry with its expressions as plain data.
#![tactic(auto)]

mod line;
mod texts;

pub use kconf_entries::{
    ChoiceEntry, ConfigEntry, DefaultOf, Entries, Expr, Kind, SelectOf, Side, Sign, Var,
};
pub use kconf_texts::KconfBad;
pub use kconf_words::SyntaxKind;
pub use texts::read_tree;
