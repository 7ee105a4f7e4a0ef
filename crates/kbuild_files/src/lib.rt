//! The files that Kbuild texts name, by their names: the paths that name a source, and the text of all.
//!
//! A reader of Kbuild texts puts in one way after another, a name and a path; out come the paths of the file that a source
//! belongs to, and one line a file. The rules are those of the Linux document kbuild/makefiles, "Built-in object goals" and
//! "Descending down in directories"; the text of a list of files is this project's. A contract sees the files as a list.
//!
//! The promise to the crates above: `cond_of` answers the paths that name a source, without memory.
#![tactic(auto)]

mod conds;
mod golem;
mod shared;
mod source;

pub use conds::{FileConds, cond_of};
pub use golem::golem_text;
