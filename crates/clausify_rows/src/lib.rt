//! Worked rows: clause forms that are made once for facts, and to which wishes are added.
//!
//! The crate has tests alone. The facts are those of two bool symbols A and B, where B depends on A: variable 1 is A,
//! and 2 is B. A row is what is held before them, `/` and a wish, each a word or nothing, and then the clauses as in
//! DIMACS, with a semicolon for a line's end.
#![tactic(auto)]

#[cfg(test)]
mod facts;
#[cfg(test)]
mod forms;
#[cfg(test)]
mod tests;
#[cfg(test)]
mod words;
