//! The formulas of conditions, and the states that they refer to.

ghost use Rattle.std.specs.Prelude.{◌≡◌, ◌++◌, ◌∷◌, [], ℕ, map, IfOk, OnOk};
ghost use Rattle.std.specs.List.{flat_map};
ghost use Rattle.cpp_blocks.specs.Formulas as spec;
ghost use Rattle.cpp_blocks.specs.Mentions.{names_in};
ghost use Rattle.cpp_blocks.specs.Places.{source_at, turns_at};

use crate::blocks::Blocks;
use crate::pieces::PieceOf;
use crate::place::Place;
use cpp_directives::Cond;
use std::alloc::{AllocError, Global};
use ut_logic::{Formula, Item, Node, Text, all_of, any_of, not_of};

/// The number of a macro name, as a state has it.
fn name_number(blocks: &Blocks, name: &Text) -> Result<u32, AllocError>
    ensures { IfOk result (λ k. (file : ℕ) → k ≡ spec.name_in (spec.source_of file blocks.now) name.now) }
{
    u32::try_from(blocks.number_of(name)).map_err(|_| AllocError)
}

/// A macro is defined after so many of its lines.
pub fn defined_item(file: u32, blocks: &Blocks, name: &Text, turn: u32) -> Result<Item, AllocError>
    ensures { IfOk result (λ i. i ≡ spec.defined_item (spec.source_of file blocks.now) name.now turn) }
{
    let name = name_number(blocks, name)?;
    Ok(Item::StateD { file, name, turn })
}

/// A macro is defined and true after so many of its lines.
pub fn true_item(file: u32, blocks: &Blocks, name: &Text, turn: u32) -> Result<Item, AllocError>
    ensures { IfOk result (λ i. i ≡ spec.true_item (spec.source_of file blocks.now) name.now turn) }
{
    let name = name_number(blocks, name)?;
    Ok(Item::StateT { file, name, turn })
}

/// The state of a macro after so many of its lines.
pub fn state_node(file: u32, blocks: &Blocks, name: &Text, turn: u32) -> Result<Node, AllocError>
    ensures { IfOk result (λ n. n ≡ spec.state_node (spec.source_of file blocks.now) name.now turn) }
{
    let name = name_number(blocks, name)?;
    Ok(Node::State { file, name, turn })
}

/// The item of a piece there.
fn piece_item(alloc: Global, place: &Place, text: &Text) -> Result<Item, AllocError>
    ensures { IfOk result (λ i. i ≡ Item.Piece place.now.file (spec.piece_in (source_at place.now) text.now ((turns_at place.now).piece text.now))) }
{
    let turn = place.turns.of_piece(alloc, text)?;
    let text = text.copy(alloc)?;
    let number = place.blocks.piece_number(&PieceOf { text, turn });
    let piece = u32::try_from(number).map_err(|_| AllocError)?;
    Ok(Item::Piece {
        file: place.file,
        piece,
    })
}

/// The formula of a condition there.
#[cycle(formulas)]
pub fn formula(alloc: Global, place: &Place, cond: &Cond) -> Result<Formula, AllocError>
    ensures { IfOk result (λ f. f ≡ spec.formula_of (source_at place.now) (turns_at place.now) cond.now) }
{
    match cond {
        Cond::Const(true) => Ok(Formula::Yes),
        Cond::Const(false) => Ok(Formula::No),
        Cond::Defined(name) => Ok(Formula::Is(defined_item(
            place.file,
            place.blocks,
            name,
            place.turns.of(name),
        )?)),
        Cond::Plain(name) => Ok(Formula::Is(true_item(
            place.file,
            place.blocks,
            name,
            place.turns.of(name),
        )?)),
        Cond::Piece(text) => Ok(Formula::Is(piece_item(alloc, place, text)?)),
        Cond::Neg(inner) => {
            let inner = formula(alloc, place, inner.get())?;
            not_of(alloc, inner)
        }
        Cond::AllOf(list) => {
            let all = formula_each(alloc, place, list.as_slice())?;
            Ok(all_of(all))
        }
        Cond::AnyOf(list) => {
            let all = formula_each(alloc, place, list.as_slice())?;
            Ok(any_of(all))
        }
    }
}

/// The formulas of several conditions there.
#[cycle(formulas)]
fn formula_each(alloc: Global, place: &Place, list: &[Cond]) -> Result<Vec<Formula>, AllocError>
    ensures { IfOk result (λ fs. fs.items ≡ map (spec.formula_of (source_at place.now) (turns_at place.now)) list.now) }
{
    let mut all = Vec::with_capacity(alloc, list.len())?;
    for part in list {
        all.push(formula(alloc, place, part)?)?;
    }
    Ok(all)
}

/// Adds the state of a name there.
fn add_state(place: &Place, name: &Text, nodes: &mut Vec<Node>) -> Result<(), AllocError>
    ensures { OnOk result (nodes.new.items ≡ nodes.old.items ++ spec.state_node (source_at place.now) name.now ((turns_at place.now).name name.now) ∷ []) }
{
    nodes.push(state_node(place.file, place.blocks, name, place.turns.of(name))?)?;
    Ok(())
}

/// Adds the states that a condition refers to there.
#[cycle(states)]
pub fn add_states(place: &Place, cond: &Cond, nodes: &mut Vec<Node>) -> Result<(), AllocError>
    ensures { OnOk result (nodes.new.items ≡ nodes.old.items ++ spec.states_in (source_at place.now) (turns_at place.now) cond.now) }
{
    match cond {
        Cond::Const(_) => Ok(()),
        Cond::Defined(name) => add_state(place, name, nodes),
        Cond::Plain(name) => add_state(place, name, nodes),
        Cond::Piece(_) => Ok(()),
        Cond::Neg(inner) => add_states(place, inner.get(), nodes),
        Cond::AllOf(list) => add_states_each(place, list.as_slice(), nodes),
        Cond::AnyOf(list) => add_states_each(place, list.as_slice(), nodes),
    }
}

/// Adds the states that several conditions refer to there.
#[cycle(states)]
fn add_states_each(place: &Place, list: &[Cond], nodes: &mut Vec<Node>) -> Result<(), AllocError>
    ensures { OnOk result (nodes.new.items ≡ nodes.old.items ++ map (λ name. spec.state_node (source_at place.now) name ((turns_at place.now).name name)) (flat_map (λ found. found) (map names_in list.now))) }
{
    for part in list {
        add_states(place, part, nodes)?;
    }
    Ok(())
}
