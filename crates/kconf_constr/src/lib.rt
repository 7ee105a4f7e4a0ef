//! Formulas that hold exactly where a configuration is valid.
//!
//! In goes a tree, out come facts: for each symbol and each choice the formulas that hold, the nodes that they
//! refer to and their items. The rules are those of the Linux document kconfig-language, "Menu attributes",
//! "Menu dependencies" and "Menu structure"; the formulas, and the rules of choices, are this project's.
//!
//! A contract sees an expression as two formulas, that its value isn't n and that it is y, and truths of items
//! as the configuration that is read off them. Truths meet the facts exactly where that configuration is valid.
#![tactic(auto)]

mod choice_formulas;
mod conditions;
mod expressions;
mod facts;
mod items;
mod laws;
mod level;
mod property_formulas;
mod scope;
mod symbol_formulas;
mod writing;

pub use conditions::{free_not_n, is_y, not_n};
pub use facts::{constraints, free_constraints};
pub use items::loose_items;
pub use laws::{
    closed_nodes_are_a_part, facts_are_closed, formulas_say_written, rules_meet_facts,
    truths_are_read_back, truths_stand,
};
pub use writing::{free_written, written};
