//! The words of the command line: what they order, or the first usage kind in the order of testing.
//!
//! In go the words after the program's name, out comes an `Order` for the run. Which words are an order is this
//! project's own rule, and stands in `specs/Words` in the terms of the manual. A contract sees a word as its
//! bytes, and an order as plain data.
//!
//! The promise to the crates above: `parse` answers the order of the definition, or its usage kind, or that memory
//! ran out.
#![tactic(auto)]

mod bad;
mod command;
mod distinct;
mod jobs;
mod list_lines;
mod lists;
mod names;
mod numbers;
mod order;
mod reading;
mod sources;
mod styles;
mod vars;
mod wishes;
mod words;

pub use bad::WordsBad;
pub use lists::{ListBad, read_list};
pub use order::{Job, Order, Style, UsageKind};
pub use wishes::{ListKind, ListWish, WISHES, WishList, WishesBad, all_wishes};
pub use words::parse;
