//! A worked reader on `ut_base`'s words for reading, and rows of what it reads.
//!
//! It shows each form once: a plan with a file that may be missing, a loop over a plan, a loop over steps, refusals of one
//! reader turned into those of another, and a whole call put together from its parts.
#![tactic(auto)]

mod bad;
mod folder;
mod job;
mod sources;

pub use bad::{FolderBad, JobBad};
pub use folder::{Folder, read_folder, read_folders};
pub use job::{Wanted, Wholes, read_wholes};
pub use sources::{Texts, read_sources};

#[cfg(test)]
mod tests;
