//! Kconfig texts of the first form: entries of bools that depend on earlier ones.

mod bad;
mod file;
mod form;
mod lines;

pub use bad::KconfigBad;
pub use file::first_tree;
