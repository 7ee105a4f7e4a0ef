//! Laws on cases: their truths meet the facts of a question, and its wishes where they meet it; and what a question's facts
//! name and mention.

ghost use Rattle.ut_case.specs.Laws.{CasesMeetFacts, WishesSayMeets};
ghost use Rattle.case_laws.specs.Listed.{QuestionsAreKnown, QuestionsAreListed};

use cpp_blocks::{
    facts_are_orderly, facts_are_the_run, facts_list_their_own, facts_mention_their_own,
};
use kconf_constr::{
    facts_are_closed, formulas_say_written, rules_meet_facts, truths_are_read_back,
};
use kconf_tree::rules_look_at_the_tree;

/// Law: each root of a question, and each node that a fact of it names, has a fact.
pub fn questions_are_known()
    ensures { QuestionsAreKnown }
{
    facts_are_closed();
    facts_are_orderly();
    facts_list_their_own();
    formulas_say_written();
}

/// Law: each item that needed facts, rules and wishes mention is listed in these facts, or an outer condition of a wish.
pub fn questions_are_listed()
    ensures { QuestionsAreListed }
{
    questions_are_known();
    facts_are_closed();
    facts_are_orderly();
    facts_mention_their_own();
    formulas_say_written();
}

/// Law: the truths that a case gives meet all facts of its question, and all rules of a model text.
pub fn cases_meet_facts()
    ensures { CasesMeetFacts }
{
    facts_are_closed();
    facts_are_the_run();
    formulas_say_written();
    rules_look_at_the_tree();
    rules_meet_facts();
    truths_are_read_back();
}

/// Law: they meet the wishes exactly where the case meets the question.
pub fn wishes_say_meets()
    ensures { WishesSayMeets }
{
    truths_are_read_back();
}
