//! What the sources of a problem share: the ground, and the numbers of outer conditions and of undeclared names.
//!
//! In go a tree of Kconfig texts or the rules of a model text, sources, and the paths by which these are built. Out come the
//! numbers of the outer conditions of Kbuild texts, after those of the ground, and of undeclared names, by their bytes. Which
//! macro stands for which symbol is Linux kbuild's rule; numbers are this project's.
//!
//! A contract sees all this as `Shared` of `ut_case`. The promise to the crates above: the numbers are those that `ut_case`
//! defines, and what is said of a source rests on them and on that source alone.
#![tactic(auto)]

mod ground;
mod macro_names;
mod numbering;
mod outer_numbers;
mod shared;
mod sharing;
mod source;
#[cfg(test)]
mod tests;
mod undeclared;

pub use ground::{Ground, NamedRules};
pub use macro_names::{config_name, module_of};
pub use shared::Shared;
pub use source::{Source, paths_of};
