//! The text of a report, with evidence, as it is written.
//!
//! In go a problem, as `Reported` lets it be read, and verdicts on its blocks; out come the lines of the report. The texts
//! are this project's rule: they stand in `specs/` of `ut_report`, and each contract here says that what is written is
//! what stands there.
//!
//! The promise to the crates above: where the verdicts are right, the text is the report.
#![tactic(auto)]

mod environment;
mod further;
mod groups;
mod laws;
mod lines;
mod numbers;
mod reported;
mod steps;
mod totals;
mod values;
mod verdicts;
mod words;

pub use groups::group_text;
pub use laws::lines_are_right;
pub use lines::refused_line;
pub use reported::Reported;
pub use totals::total_line;
pub use verdicts::verdict_lines;
pub use words::word_of;
