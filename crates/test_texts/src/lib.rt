//! What tests share: trees of Kconfig texts.
//!
//! Tables of rows and files in memory are those of `test_rows`. A contract sees nothing of what stands here.
//!
//! The promise to the crates above: none. What is read is shown by the calls that the tests make.
#![tactic(auto)]

mod trees;

pub use test_rows::{check_blocks, check_lines, files_of, unescaped};
pub use trees::{build, entries_of, imply_tree_of, tree_of, tristate_tree_of};
