//! The tree of a Kconfig text: its symbols and choices with their properties, and what they mean.
//!
//! In go the entries of the texts, out comes the tree with an order in which each symbol and choice stands
//! after all that it refers to, or the limit that is passed, or the first cycle of references. The rules are
//! those of the Linux document kconfig-language, "Menu attributes", "Menu dependencies" and "Menu
//! structure"; which references count, and the limits, are this project's.
//!
//! A contract sees a tree as a `Shape`, a record of lists in which symbols and choices are named by their
//! places, beside the order. The definitions say what a configuration is, the value of an expression under
//! it, the limits of a symbol, and which configurations are valid.
#![tactic(auto)]

mod asked_comparison;
mod bad;
mod choices;
mod gather;
mod having_choices;
mod laws;
mod limits;
mod links;
mod modules_symbol;
mod node_references;
mod numbering;
mod outer_text;
mod outers;
mod parts;
mod parts_graph;
mod place;
mod references;
mod shape;
mod tree;
mod types;

pub use bad::TreeBad;
pub use having_choices::have_choices;
pub use laws::{first_cycle_is_one, references_are_nodes, rules_look_at_the_tree};
pub use place::Place;
pub use shape::{Choice, Counts, Selector, Symbol};
pub use tree::Tree;
