//! The clause form of a question.
//!
//! Facts, a slice of their nodes and a wish go in, and formulas that are held before the facts; clauses come
//! out whose models are the assignments of the slice's items that meet all of these. The translation gives
//! each inner node of a formula a variable of its own (Tseitin); the order of variables and clauses is this
//! project's rule, since reports number them. A contract sees items, literals and clauses as lists.
//!
//! The promise to the crates above: an assignment of the items extends to a model of the clauses exactly
//! where it meets facts, wish and what is held, and in one way.
#![tactic(auto)]

mod builder;
mod chosen;
mod draft;
mod fact_form;
mod form;
mod hold;
mod items;
mod laws;
mod listed;
mod literal;
mod lits;
mod shared;
mod stage;
mod stages;
#[cfg(test)]
mod tests;
mod tidy;
mod variables;
mod wish;

pub use fact_form::FactForm;
pub use form::{clauses, clauses_in};
pub use laws::{
    least_model_gives_least_truths, renaming_in_order_keeps_the_form, same_facts_have_one_form,
};
pub use listed::{are_listed, are_listed_in};
