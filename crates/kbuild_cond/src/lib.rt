//! Kbuild texts: under which conditions each source of a kernel is built.
//!
//! In goes the name of a root text, out come the files that it and the texts of its folders name, each with the paths that
//! name it, or the first refusal in reading order. The rules are those of the Linux document kbuild/makefiles, "Built-in
//! object goals", "Composite objects" and "Descending down in directories"; refusals and limits are this project's.
//!
//! The texts are read by `kbuild_folders`; here are `ways` (the paths to folders), `files` (those to objects and parts) and
//! `reading` (all of it). A contract sees a text as its bytes and what is read as plain data.
//!
//! The promise to the crates above is one clause: what is read is what a plan of reads comes to.
#![tactic(auto)]

mod adding;
mod files;
mod reading;
mod ways;

pub use kbuild_files::{FileConds, cond_of, golem_text};
pub use kbuild_folders::KbuildBad;
pub use kbuild_paths::{FileCond, Path, Paths, Step};
pub use reading::read_kbuild;
