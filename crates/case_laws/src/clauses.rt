//! Laws on the clauses of a question.

ghost use Rattle.ut_case.specs.Laws.{ClausesAreOne, ClausesStandOver, LeastModelsAreLeast};

use crate::meetings::questions_are_listed;

/// Law: models of a question's clauses are the truths of its items that meet its rules, facts and wishes, each extended in
/// one way.
pub fn clauses_stand_over()
    ensures { ClausesStandOver }
{
    questions_are_listed();
}

/// Law: the least model gives the least truths that meet them.
pub fn least_models_are_least()
    ensures { LeastModelsAreLeast }
{}

/// Law: a question has one list of clauses, over one list of items.
pub fn clauses_are_one()
    ensures { ClausesAreOne }
{}
