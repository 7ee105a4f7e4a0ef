//! Worked rows: the facts of small trees, worked out by hand from the rules of symbols and choices.
//!
//! The crate has tests alone. A row is a Kconfig text, and what its facts hold or name.
#![tactic(auto)]

#[cfg(test)]
mod answers;
#[cfg(test)]
mod bools;
#[cfg(test)]
mod conditions;
#[cfg(test)]
mod free;
#[cfg(test)]
mod implies;
#[cfg(test)]
mod kinds;
#[cfg(test)]
mod names;
#[cfg(test)]
mod tristate_choices;
#[cfg(test)]
mod writing;
