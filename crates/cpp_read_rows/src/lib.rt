//! Worked rows: small C texts and conditions with what they are read as, worked out by hand.
//!
//! The crate has tests alone.
#![tactic(auto)]

#[cfg(test)]
mod outcomes;
#[cfg(test)]
mod tests;
