//! What the lines of Kconfig texts say so far, while they are read.
//!
//! In goes what a line says, out come the entries with their full conditions, or why the entry may not stand there. The
//! rules are those of the Linux document kconfig-language, "Menu structure" and "Menu dependencies"; what a choice takes
//! is this project's.
//!
//! A contract speaks of the list of lines so far, which is nowhere kept: `Stands before p` says that `p` is what these
//! lines come to. The promise to the crates above: each step leads from one such list to the next.
#![tactic(auto)]

mod attributes;
mod conditions;
mod ended;
mod kinds;
mod open_entries;
mod openers;
mod progress;

pub use progress::Progress;
