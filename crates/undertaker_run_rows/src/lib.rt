//! Worked rows: what runs over files in memory write, by hand from the manual.
//!
//! Laws say that the definitions come to them, and tests that `run` does. A row is the words and the files of a run, and
//! what the run writes on the output, its status, and what it writes on the error output. Which sources are built follows
//! the Linux document kbuild/makefiles; lines, refusals and statuses are this project's rule.
#![tactic(auto)]

#[cfg(test)]
mod fakes;
#[cfg(test)]
mod faults;
#[cfg(test)]
mod golem;
#[cfg(test)]
mod refusals;
#[cfg(test)]
mod runs;
mod worked;

pub use worked::{golem_rows, other_jobs};
