//! Verdicts on the conditional blocks of a C source, under the rules of a Kconfig text.
//!
//! In go the words of the command line and the files that they name, out comes one verdict line for
//! each block, or the one line on `err` that says why there are none. Kconfig texts are read by the
//! Linux document kconfig-language, sources by ISO C, "Conditional inclusion"; what a verdict means is
//! from the EuroSys 2011 paper on Undertaker. The words, the lines and the statuses are this project's.
//!
//! A contract sees words, names and lines as bytes, and a run as its outcome. The one promise: each
//! status comes only with its cause, and nothing is written unless the whole text could be made.
#![tactic(auto)]

mod bad;
mod closing;
mod decision;
mod dependencies;
mod first_bad;
mod first_kconfig;
mod first_laws;
mod first_source;
mod gather;
mod judging;
mod lines;
mod macros;
mod names;
mod numbers;
mod path;
mod report;
mod status;
mod steps;
mod top;
mod totals;
mod wishes;
mod words;

pub use first_bad::FirstBad;
pub use first_kconfig::{KconfigBad, first_tree};
pub use first_laws::{bad_kconfig_line_is_named, bad_source_line_is_named};
pub use first_source::first_directives;
pub use status::Status;
pub use top::run;
