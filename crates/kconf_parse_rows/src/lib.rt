//! Worked rows: what reading small Kconfig texts gives.
//!
//! The crate has tests alone. A row is a text, and the entries or the refusal that it comes to by the rules of the
//! Linux document kconfig-language, written out by hand.
#![tactic(auto)]

#[cfg(test)]
mod entries;
#[cfg(test)]
mod expressions;
#[cfg(test)]
mod faults;
#[cfg(test)]
mod places;
#[cfg(test)]
mod readings;
#[cfg(test)]
mod sources;
#[cfg(test)]
mod words;
#[cfg(test)]
mod written;
