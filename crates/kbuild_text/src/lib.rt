//! What one Kbuild text says: the objects, folders and parts that its lines list, and under which steps.
//!
//! Bytes go in; out come the lines that list goals, in order, each with its steps, or the first conditional line without
//! a partner. The rules are those of the Linux document kbuild/makefiles, "Built-in object goals", "Loadable module
//! goals", "Composite objects" and "Descending down in directories", over the lines, assignments and conditional lines of
//! the GNU make manual; what isn't looked into is this project's.
//!
//! The way of a text: `lines` (physical lines joined, comments cut), `marks` (which bytes stand in macro calls), `words`,
//! `statements` (an assignment, a conditional line, or neither), `variables` (what a variable's words are, and under
//! which step), `goals` (what a word names), `listings` (the lines of a text, with the conditional lines round them).
//! A contract sees a text as its bytes and a listing as plain data.
#![tactic(auto)]

mod bad;
mod chains;
mod goals;
mod lines;
mod listings;
mod marks;
mod statements;
mod variables;
mod words;

pub use bad::TextBad;
pub use goals::Goal;
pub use listings::{Listing, listings_of};
pub use variables::Role;
