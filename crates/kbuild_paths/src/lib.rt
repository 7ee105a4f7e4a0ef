//! Steps and paths of Kbuild texts: the conditions under which a file is built.
//!
//! The types that the reader of Kbuild texts answers and that all crates above it speak of. The rules are those of the Linux
//! document kbuild/makefiles, "Built-in object goals" and "Descending down in directories". A contract sees a step, a path and
//! a list of paths as plain data.
//!
//! The promise to the crates above: a list of paths has each path once. `paths_of` in `specs/` says which paths name a source.
#![tactic(auto)]

mod path;
mod shared;
mod step;

pub use path::{FileCond, Path, Paths};
pub use step::Step;
