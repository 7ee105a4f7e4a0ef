//! Worked rows: small trees with configurations, each with what the rules make of it, worked out by hand.
//!
//! The crate has tests alone. A row is a configuration in letters, `|`, a Kconfig text with `; ` for a line's end, and
//! what they come to.
#![tactic(auto)]

#[cfg(test)]
mod answers;
#[cfg(test)]
mod completions;
#[cfg(test)]
mod configs;
#[cfg(test)]
mod texts;
#[cfg(test)]
mod validities;
