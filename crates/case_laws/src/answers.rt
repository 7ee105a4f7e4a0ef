//! Laws on answers: what a derivation and a least model of a question's clauses say of its cases.

ghost use Rattle.ut_case.specs.Laws.{RefutedHaveNoModel, NoModelIsNoCase, LeastModelsAreCases, LeastTruthsAreLeast, RefutedHaveNoCase};

use crate::clauses::{clauses_stand_over, least_models_are_least};
use crate::meetings::{
    cases_meet_facts, questions_are_known, questions_are_listed, wishes_say_meets,
};
use crate::standing::{cases_have_truths, parts_complete};
use cpp_blocks::{facts_are_orderly, facts_list_their_own};
use kconf_constr::{closed_nodes_are_a_part, facts_are_closed, formulas_say_written, truths_stand};
use log_check::refuted_no_model;

/// Law: what a derivation refutes has no model. Rule: resolution in propositional logic.
pub fn refuted_have_no_model()
    ensures { RefutedHaveNoModel }
{
    refuted_no_model();
}

/// Law: a question whose clauses have no model has no case.
pub fn no_model_is_no_case()
    ensures { NoModelIsNoCase }
{
    cases_meet_facts();
    wishes_say_meets();
    clauses_stand_over();
}

/// Law: a case of the family with the least truths meets the question, and comes before all others that do.
pub fn least_truths_are_least()
    ensures { LeastTruthsAreLeast }
{
    cases_meet_facts();
    wishes_say_meets();
    questions_are_listed();
    cases_have_truths();
}

/// Law: a refuted question has no case.
pub fn refuted_have_no_case()
    ensures { RefutedHaveNoCase }
{
    refuted_have_no_model();
    no_model_is_no_case();
}

/// Law: the least model of a question's clauses is its least case. Over a tree the truths of the needed nodes are completed
/// to a configuration without a user's setting elsewhere; over a model text a name is true where its item is.
pub fn least_models_are_cases()
    ensures { LeastModelsAreCases }
{
    questions_are_known();
    questions_are_listed();
    clauses_stand_over();
    least_models_are_least();
    cases_have_truths();
    least_truths_are_least();
    parts_complete();
    closed_nodes_are_a_part();
    facts_are_closed();
    facts_are_orderly();
    facts_list_their_own();
    formulas_say_written();
    truths_stand();
}
