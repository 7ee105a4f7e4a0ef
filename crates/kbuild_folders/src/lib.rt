//! The Kbuild texts that are read from a root text on: in which order, and what each of them lists.
//!
//! In goes the name of a root text, out come it and the texts of the folders that texts name, each once and in order of first
//! mention, or the first refusal. The rules are those of the Linux document kbuild/makefiles, "The kbuild files" and
//! "Descending down in directories"; refusals and limits are this project's.
//!
//! `names` says which words name a file, `texts` reads one text, `folders` all of them. A contract sees a text as what it
//! lists, and folders as their names.
//!
//! The promise to the crates above is one clause: what is read is what a plan of reads comes to.
#![tactic(auto)]

mod bad;
mod folders;
mod names;
mod texts;

pub use bad::KbuildBad;
pub use folders::{Folders, Texts, read_texts};
pub use names::Place;
pub use texts::TextRead;
