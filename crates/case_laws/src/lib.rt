//! The laws that lead from a question on a block to its answer.
//!
//! In goes nothing and out comes nothing: each function is a law, whose statement stands in `ut_case`. Truths of a case meet
//! the facts of its question; truths that meet the facts of the needed nodes stand for a configuration, which is completed;
//! they decide the run of a source; and the clauses of a question say the same of truths. So a refuted question has no
//! case, and the least model of its clauses is its least case. Rule: the classes of defects are those of the EuroSys 2011
//! paper on Undertaker; facts, clauses and least cases are this project's rule.
//!
//! The promise to the crates above: a derivation that refutes the clauses of a question refutes the question, and the least
//! model of the clauses is the least case of the question, over a tree of Kconfig texts and over a model text.
#![tactic(auto)]

mod answers;
mod clauses;
mod meetings;
mod standing;

pub use answers::{
    least_models_are_cases, least_truths_are_least, no_model_is_no_case, refuted_have_no_case,
    refuted_have_no_model,
};
pub use clauses::{clauses_are_one, clauses_stand_over, least_models_are_least};
pub use meetings::{cases_meet_facts, questions_are_known, questions_are_listed, wishes_say_meets};
pub use standing::{cases_have_truths, free_items_decide, nodes_stand_for, parts_complete};
