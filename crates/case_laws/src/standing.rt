//! Laws on truths of items: what they stand for, and what they decide.

ghost use Rattle.ut_case.specs.Laws.{CasesHaveTruths, FreeItemsDecide, NodesStandFor, PartsComplete};

use crate::meetings::{cases_meet_facts, questions_are_known, questions_are_listed};
use complete_conf::part_is_completed;
use cpp_blocks::{facts_are_orderly, facts_list_their_own};
use kconf_constr::{closed_nodes_are_a_part, facts_are_closed, formulas_say_written, truths_stand};

/// Law: truths that meet the facts of the needed nodes are those of some case, whose configuration has a closed and right
/// part there.
pub fn nodes_stand_for()
    ensures { NodesStandFor }
{
    questions_are_known();
    closed_nodes_are_a_part();
    facts_are_closed();
    facts_are_orderly();
    facts_list_their_own();
    formulas_say_written();
    truths_stand();
}

/// Law: a closed and right part is completed to a configuration that keeps the rules and has all else without a user's
/// setting.
pub fn parts_complete()
    ensures { PartsComplete }
{
    part_is_completed();
}

/// Law: truths that meet the facts of the needed nodes and agree on free items agree on blocks and macro states too.
pub fn free_items_decide()
    ensures { FreeItemsDecide }
{
    questions_are_known();
    questions_are_listed();
    facts_are_closed();
    facts_are_orderly();
    facts_list_their_own();
    formulas_say_written();
}

/// Law: so a case of the family has all truths that meet the facts, where it has the free ones.
pub fn cases_have_truths()
    ensures { CasesHaveTruths }
{
    cases_meet_facts();
    free_items_decide();
}
