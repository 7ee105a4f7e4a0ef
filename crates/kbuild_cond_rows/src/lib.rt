//! Worked rows: what reading small Kbuild texts gives.
//!
//! The crate has tests alone. A row is one or more texts, and the text of the files that they name or the refusal that they
//! come to by the rules of the Linux document kbuild/makefiles and this project's, written out by hand.
#![tactic(auto)]

#[cfg(test)]
mod conditions;
#[cfg(test)]
mod folders;
#[cfg(test)]
mod hostile;
#[cfg(test)]
mod lines;
#[cfg(test)]
mod objects;
#[cfg(test)]
mod readings;
#[cfg(test)]
mod sources;
