//! The statements of Kconfig texts: what a line of words says.
//!
//! In go the words of a line and which entry stands before it, out comes the entry that the line begins, or the
//! attribute that it adds to the one before; or its first fault. Here stands the whole definition of what lines say one
//! after another: the table of statements, the lines that enclose a line, and the entries with their full conditions.
//! The rules are those of the Linux document kconfig-language.
//!
//! A contract sees the lines so far as the list of entries with their attributes, the last one first. The promise to the
//! crates above: what a line is read as, added to any such list, is what the table says.
#![tactic(auto)]

mod attributes;
mod entries;
mod keywords;
mod laws;
mod lines;
mod reader;

pub use laws::{lines_enclose_until_their_end_word, named_choices_exist};
pub use lines::{ChoiceLine, ConfigLine, EntryLine, MenuLine, Opens, Owner, Says};
pub use reader::says;
