//! Conditional directives and macro lines of a C source, and their conditions, as plain data.
//!
//! The types that the reader of C texts answers and that all crates above it speak of, with the reasons for which a
//! text is refused, the chains of conditionals, and the names of an opaque piece. The rules are those of ISO C,
//! "Preprocessing directives"; limits and opaque pieces are this project's. A contract sees the values as they are.
//!
//! The promise to the crates above is `IsWellFormed`: what holds of the directives of every source that is read.
#![tactic(auto)]

mod bad;
mod condition;
mod directive;
mod open_chains;
mod part;
mod piece_words;
mod quotes;
mod shared;
mod well_formed;

pub use bad::CppBad;
pub use condition::Cond;
pub use directive::{Directive, Gives, What};
pub use open_chains::{Chain, OpenChains};
pub use part::{Part, part_of};
pub use piece_words::piece_names;
pub use quotes::{is_quote, quoted_len};
pub use well_formed::is_well_formed;
