ghost use Rattle.std.specs.Prelude.{◌≡◌, ◌++◌, ◌∷◌, [], All, length, map, true, IfOk, option_to_list};
ghost use Rattle.cpp_blocks.specs.Formulas.{source_of, states_in};
ghost use Rattle.cpp_blocks.specs.Mentions.{names_of};
ghost use Rattle.cpp_blocks.specs.Places.{source_at, turns_at};
ghost use Rattle.cpp_blocks.specs.Solution.{IsTheRun};
ghost use Rattle.cpp_blocks.specs.Steps as spec;
ghost use Rattle.cpp_blocks.specs.Facts.{facts_of, AreStarts, is_outside};
ghost use Rattle.cpp_blocks.specs.Nodes.{nodes_of, IsOrderly, IsListed, MentionsOwn, IsListedStart, IsListedBuilt};
ghost use Rattle.ut_logic.specs.declared.facts.Fact as declared;

use crate::blocks::Blocks;
use crate::conditions::{add_states, formula};
use crate::facts::{Group, MacroLine, define_fact, group_fact, undef_fact};
use crate::gathered::Gathered;
use crate::groups::{Groups, OpenGroups};
use crate::place::Place;
use crate::starts::{BuiltOf, StartOf};
use crate::turns::Turns;
use cpp_directives::{Cond, Directive, What};
use std::alloc::{AllocError, Global};
use ut_logic::{Fact, Facts, Formula, Node};

/// The states that a condition refers to there.
fn states_of(alloc: Global, place: &Place, cond: &Cond) -> Result<Vec<Node>, AllocError>
    ensures { IfOk result (λ v. v.items ≡ states_in (source_at place.now) (turns_at place.now) cond.now) }
{
    let mut nodes = Vec::new(alloc);
    add_states(place, cond, &mut nodes)?;
    Ok(nodes)
}

/// The groups of a chain so far.
fn groups_so_far(alloc: Global, chain: &OpenGroups) -> Result<Vec<u32>, AllocError>
    ensures { IfOk result (λ v. v.items ≡ chain.now.earlier ++ chain.now.current ∷ []) }
{
    let mut groups = Vec::from_slice(alloc, chain.earlier.as_slice())?;
    groups.push(chain.current)?;
    Ok(groups)
}

/// The fact of the next group of the innermost chain.
fn next_group(
    alloc: Global,
    file: u32,
    groups: &Groups,
    states: &[Node],
    cond: Formula,
) -> Result<Option<Fact>, AllocError>
    ensures { IfOk result (λ o. option_to_list o ≡ spec.next_group file groups.now.next groups.now.chains states.now cond) }
{
    match groups.innermost() {
        Some(chain) => {
            let earlier = groups_so_far(alloc, chain)?;
            let group = Group {
                file,
                block: groups.next(),
                parent: chain.parent,
                earlier: &earlier,
                states,
            };
            Ok(Some(group_fact(alloc, &group, cond)?))
        }
        None => Ok(None),
    }
}

/// The fact of the first group of a chain.
fn first_group(
    alloc: Global,
    file: u32,
    groups: &Groups,
    states: &[Node],
    cond: Formula,
) -> Result<Option<Fact>, AllocError>
    ensures { IfOk result (λ o. option_to_list o ≡ spec.group_fact file groups.now.next (spec.current groups.now.chains) [] states.now cond ∷ []) }
{
    let group = Group {
        file,
        block: groups.next(),
        parent: groups.current(),
        earlier: &[],
        states,
    };
    Ok(Some(group_fact(alloc, &group, cond)?))
}

/// The fact of a directive, if it has one.
fn fact_at(
    alloc: Global,
    place: &Place,
    groups: &Groups,
    directive: &Directive,
) -> Result<Option<Fact>, AllocError>
    ensures { IfOk result (λ o. option_to_list o ≡ spec.fact_at (source_at place.now) (turns_at place.now) groups.now directive.now.line directive.now.what) }
{
    match &directive.what {
        What::If(cond) => {
            let states = states_of(alloc, place, cond)?;
            let formula = formula(alloc, place, cond)?;
            first_group(alloc, place.file, groups, &states, formula)
        }
        What::Elif(cond) => {
            let states = states_of(alloc, place, cond)?;
            let formula = formula(alloc, place, cond)?;
            next_group(alloc, place.file, groups, &states, formula)
        }
        What::Else => next_group(alloc, place.file, groups, &[], Formula::Yes),
        What::Endif => Ok(None),
        What::Define { name, gives } => {
            let line = MacroLine {
                file: place.file,
                blocks: place.blocks,
                block: groups.current(),
                name,
                turn: place.turns.of(name),
            };
            Ok(Some(define_fact(alloc, &line, directive.line, *gives)?))
        }
        What::Undef { name } => {
            let line = MacroLine {
                file: place.file,
                blocks: place.blocks,
                block: groups.current(),
                name,
                turn: place.turns.of(name),
            };
            Ok(Some(undef_fact(alloc, &line)?))
        }
    }
}

/// One fact for each block, from the file on, and then for each macro name one for its start and one for
/// each of its lines. The starts are in the order of `macro_names`. The only error is want of memory.
///
/// Rule: ISO C, "Conditional inclusion" and "Macro replacement"; facts and items are this project's rule.
pub fn block_facts(
    alloc: Global,
    blocks: &Blocks,
    file: u32,
    starts: &[StartOf],
    built: BuiltOf,
) -> Result<Facts, AllocError>
    requires count { length starts.now ≡ length (names_of blocks.now) }
    requires given { AreStarts file 0 starts.now }
    requires starts_listed { All IsListedStart starts.now }
    requires built { is_outside built.formula ≡ true }
    requires built_listed { IsListedBuilt built }
    ensures facts { IfOk result (λ f. f.list ≡ facts_of file blocks.now starts.now built) }
    ensures run { IfOk result (λ f. IsTheRun (source_of file blocks.now) blocks.now starts.now built f.list) }
    ensures known { IfOk result (λ f. map (λ (fact : declared.Fact). fact.node) f.list ≡ nodes_of file blocks.now) }
    ensures orderly { IfOk result (λ f. All (IsOrderly file blocks.now) f.list) }
    ensures listed { IfOk result (λ f. All IsListed f.list) }
    ensures own { IfOk result (λ f. All (MentionsOwn file) f.list) }
{
    let mut facts = Gathered::new(alloc, file, starts, built)?;
    let mut turns = Turns::new(alloc);
    let mut groups = Groups::new(alloc);
    for directive in blocks.directives() {
        let place = Place {
            file,
            blocks,
            turns: &turns,
        };
        let fact = fact_at(alloc, &place, &groups, directive)?;
        facts.put(fact)?;
        turns.pass(alloc, &directive.what)?;
        groups.pass(alloc, &directive.what)?;
    }
    facts.into_facts()
}
