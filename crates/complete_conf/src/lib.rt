//! Configurations of a tree: the value that a symbol has without a user's setting, a part of a
//! configuration completed by such values, whether a configuration is valid, and its text.
//!
//! Rule: Linux kconfig-language, "Menu attributes" and "Menu dependencies"; the rules for choices are
//! this project's own. A contract sees a configuration as one value for each symbol, one mode for each
//! choice and one truth for each outer condition, by their numbers. The promise to the crates above: a
//! known part that is closed under references, and each node of which is right, completes to a valid
//! configuration.
#![tactic(auto)]

mod calculating;
mod choosing;
mod completing;
mod config;
mod free_values;
mod laws;
mod outer_truths;
mod properties;
mod selecting;
mod texts;
mod validity;
mod values;
mod writing;

pub use completing::complete;
pub use config::{Config, Known};
pub use free_values::calc;
pub use laws::part_is_completed;
pub use texts::config_text;
pub use validity::is_valid;
pub use writing::is_written;
