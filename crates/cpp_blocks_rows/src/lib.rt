//! Worked rows: small C texts with starts, and the blocks that are then on, worked out by hand.
//!
//! The crate has tests alone. A row is the items that are chosen, `|`, a C text with `; ` for a line's end, and the
//! blocks.
#![tactic(auto)]

#[cfg(test)]
mod blocks;
#[cfg(test)]
mod running;
#[cfg(test)]
mod runs;
#[cfg(test)]
mod starts;
#[cfg(test)]
mod tests;
