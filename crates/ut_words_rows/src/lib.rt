//! Worked rows of the words of the command line and of lists, by hand from the manual's tables: laws that the definitions
//! come to them, and tests that the public calls do.
#![tactic(auto)]

#[cfg(test)]
mod lists;
#[cfg(test)]
mod shown;
#[cfg(test)]
mod tests;
mod worked;

pub use worked::{
    lists_of_wishes, not_built_yet, refused_values, refused_words, spellings, two_faults,
};
