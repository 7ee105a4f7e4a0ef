//! The top call: from the words of the command line, files and two sinks to a status.
//!
//! In go the words after the program's name, files to read from, and an output and an error output to write to. Out comes
//! a status; the output has the text of the job, or the error output one line that says why there is none. Which texts
//! are read in which order, what a job makes of them, the lines and the statuses are this project's own rule; what golem
//! prints follows the Linux document kbuild/makefiles. A contract sees words and texts as bytes, and files and sinks as
//! their traits show them.
//!
//! The promise to the program: over all files, one clause says that the reads follow the work that the words order, and
//! that the run ends by what that work comes to. The clauses by status follow from it.
#![tactic(auto)]

mod bad;
mod err_lines;
mod jobs;
mod kbuild;
mod laws;
mod orders;
mod output;
mod refusing;
mod status;
mod texts;
mod top;
mod work;

pub use laws::a_run_has_one_refusal;
pub use status::Status;
pub use top::run;
