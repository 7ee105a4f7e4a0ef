//! Directives and conditions of C sources.
//!
//! In goes the text of one source, out come its conditional directives and macro lines in order, or the first bad
//! line. The rules are those of ISO C, "Preprocessing directives", with this project's limits, its opaque pieces
//! for what no tool evaluates, and Linux's `IS_ENABLED`, `IS_BUILTIN` and `IS_MODULE`.
//!
//! `cursor` reads bytes without splices, `modes` and `uncommented` pass comments and find the directives' lines,
//! `words` and `tokens` cut these, `operand` and `reader` read conditions, `statement` and `chains` say what a line
//! is, and `source` puts it together.
//!
//! A contract sees a text as its bytes, and a directive with the texts and conditions in it as plain data. The
//! definitions go over the whole text in passes: of `#if 1 // a\` and `b`, `Splices` leaves `#if 1 // ab`, `Comments`
//! leaves `#if 1  `, and `DirectiveLines` the bytes after the sign with the number of its line; the code reads once,
//! from front to back. To the crates above: `directives` answers just the directives of these definitions, or names
//! just the first bad line.
#![tactic(auto)]

mod cursor;
mod depth;
mod modes;
mod nest;
mod number;
mod operand;
mod reader;
mod signs_over;
mod source;
mod spans;
mod statement;
mod token;
mod tokens;
mod uncommented;
mod words;

pub use cpp_directives::{Cond, CppBad, Directive, Gives, What};
pub use operand::piece_names_are_tokens;
pub use reader::{conditions_follow_rules, read_condition};
pub use source::{directives, line_spans};
pub use spans::LineOf;
pub use token::Token;
