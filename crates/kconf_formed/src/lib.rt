//! What holds of the entries of every tree of Kconfig texts that is read.
//!
//! In goes nothing and out comes nothing: a function is a law of the definition of reading, and its contract is the law.
//! The reader in `kconf_parse` promises that its answer is one of that definition; so what is said here holds of each
//! answer of it. Flat lists are those of the Linux document kconfig-language, "Menu dependencies"; the limit on nesting
//! is this project's.
#![tactic(auto)]

mod laws;

pub use laws::entries_that_are_read_are_formed;
