//! What is asked of the blocks of sources, and what the answers mean.
//!
//! In goes nothing and out comes nothing: these are plain types and definitions. A problem is a tree of Kconfig texts, or
//! the rules of a model text, with sources and the paths by which they are built. A case is a configuration and an
//! environment. The definitions say when a block is on in a case, which cases there are, when a block is dead, undead or
//! live, what a question needs, its clauses, and its least case, by the EuroSys 2011 paper on Undertaker and, for the exact
//! families, classes, clauses and least cases, this project's rules.
//!
//! The promise to the crates above: one meaning for each of these words.
#![tactic(auto)]

mod laws;
mod question;
mod shared;
#[cfg(test)]
mod tests;
mod verdict;
mod whole;
mod wish;
mod word;

pub use laws::{answers_are_verdicts, questions_ask};
pub use question::{Ask, BlockId, Class, Family, Question};
pub use verdict::Verdict;
pub use whole::{Values, Whole};
pub use wish::Wish;
pub use word::Word;
