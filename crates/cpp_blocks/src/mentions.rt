//! The macro names of a source and its opaque pieces.

ghost use Rattle.std.specs.Prelude.{◌≡◌, [], map, IfOk, OnOk};
ghost use Rattle.std.specs.List.{flat_map};
ghost use Rattle.ut_text.specs.Text.{text_eq};
ghost use Rattle.cpp_blocks.specs.PieceIdentity.{piece_eq};
ghost use Rattle.cpp_blocks.specs.Mentions as spec;
ghost use Rattle.cpp_blocks.specs.Turns as turn;
ghost use Rattle.cpp_blocks.specs.Counted.{piece_turn};

use crate::pieces::PieceOf;
use crate::turns::Turns;
use cpp_directives::{Cond, Directive, What};
use indexmap::IndexSet;
use std::alloc::{AllocError, Global};
use ut_logic::Text;

/// Adds a name, if it is new.
fn add_name(alloc: Global, name: &Text, names: &mut IndexSet<Text>) -> Result<(), AllocError>
    ensures { OnOk result (names.new.keys ≡ spec.with_new text_eq names.old.keys name.now) }
{
    names.insert(name.copy(alloc)?)?;
    Ok(())
}

/// Adds the names of a condition.
#[cycle(names)]
fn add_names(alloc: Global, cond: &Cond, names: &mut IndexSet<Text>) -> Result<(), AllocError>
    ensures { OnOk result (names.new.keys ≡ spec.firsts text_eq names.old.keys (spec.names_in cond.now)) }
{
    match cond {
        Cond::Const(_) => Ok(()),
        Cond::Defined(name) => add_name(alloc, name, names),
        Cond::Plain(name) => add_name(alloc, name, names),
        Cond::Piece(_) => Ok(()),
        Cond::Neg(inner) => add_names(alloc, inner.get(), names),
        Cond::AllOf(list) => add_names_each(alloc, list.as_slice(), names),
        Cond::AnyOf(list) => add_names_each(alloc, list.as_slice(), names),
    }
}

/// Adds the names of several conditions.
#[cycle(names)]
fn add_names_each(
    alloc: Global,
    list: &[Cond],
    names: &mut IndexSet<Text>,
) -> Result<(), AllocError>
    ensures { OnOk result (names.new.keys ≡ spec.firsts text_eq names.old.keys (flat_map (λ found. found) (map spec.names_in list.now))) }
{
    for part in list {
        add_names(alloc, part, names)?;
    }
    Ok(())
}

/// Adds the names of a directive.
fn add_names_at(alloc: Global, what: &What, names: &mut IndexSet<Text>) -> Result<(), AllocError>
    ensures { OnOk result (names.new.keys ≡ spec.firsts text_eq names.old.keys (spec.names_at what.now)) }
{
    match what {
        What::If(cond) => add_names(alloc, cond, names),
        What::Elif(cond) => add_names(alloc, cond, names),
        What::Else => Ok(()),
        What::Endif => Ok(()),
        What::Define { name, .. } => add_name(alloc, name, names),
        What::Undef { name } => add_name(alloc, name, names),
    }
}

/// The names of a source, each once.
pub fn names_of(alloc: Global, list: &[Directive]) -> Result<IndexSet<Text>, AllocError>
    ensures { IfOk result (λ names. names.keys ≡ spec.names_of list.now) }
{
    let mut names = IndexSet::new(alloc);
    for directive in list {
        add_names_at(alloc, &directive.what, &mut names)?;
    }
    Ok(names)
}

/// Adds a piece, if it is new.
fn add_piece(
    alloc: Global,
    text: &Text,
    turns: &Turns,
    pieces: &mut IndexSet<PieceOf>,
) -> Result<(), AllocError>
    ensures { OnOk result (pieces.new.keys ≡ spec.with_new piece_eq pieces.old.keys (record { text = text.now; turn = piece_turn turns.now text.now })) }
{
    let turn = turns.of_piece(alloc, text)?;
    let text = text.copy(alloc)?;
    match pieces.insert(PieceOf { text, turn }) {
        Ok(_) => Ok(()),
        Err(_) => Err(AllocError),
    }
}

/// Adds the pieces of a condition.
#[cycle(pieces)]
fn add_pieces(
    alloc: Global,
    cond: &Cond,
    turns: &Turns,
    pieces: &mut IndexSet<PieceOf>,
) -> Result<(), AllocError>
    ensures { OnOk result (pieces.new.keys ≡ spec.firsts piece_eq pieces.old.keys (turn.pieces_in (piece_turn turns.now) cond.now)) }
{
    match cond {
        Cond::Const(_) => Ok(()),
        Cond::Defined(_) => Ok(()),
        Cond::Plain(_) => Ok(()),
        Cond::Piece(text) => add_piece(alloc, text, turns, pieces),
        Cond::Neg(inner) => add_pieces(alloc, inner.get(), turns, pieces),
        Cond::AllOf(list) => add_pieces_each(alloc, list.as_slice(), turns, pieces),
        Cond::AnyOf(list) => add_pieces_each(alloc, list.as_slice(), turns, pieces),
    }
}

/// Adds the pieces of several conditions.
#[cycle(pieces)]
fn add_pieces_each(
    alloc: Global,
    list: &[Cond],
    turns: &Turns,
    pieces: &mut IndexSet<PieceOf>,
) -> Result<(), AllocError>
    ensures { OnOk result (pieces.new.keys ≡ spec.firsts piece_eq pieces.old.keys (flat_map (λ found. found) (map (turn.pieces_in (piece_turn turns.now)) list.now))) }
{
    for part in list {
        add_pieces(alloc, part, turns, pieces)?;
    }
    Ok(())
}

/// Adds the pieces of a directive.
fn add_pieces_at(
    alloc: Global,
    what: &What,
    turns: &Turns,
    pieces: &mut IndexSet<PieceOf>,
) -> Result<(), AllocError>
    ensures { OnOk result (pieces.new.keys ≡ spec.firsts piece_eq pieces.old.keys (turn.pieces_at (piece_turn turns.now) what.now)) }
{
    match what {
        What::If(cond) => add_pieces(alloc, cond, turns, pieces),
        What::Elif(cond) => add_pieces(alloc, cond, turns, pieces),
        What::Else | What::Endif | What::Define { .. } | What::Undef { .. } => Ok(()),
    }
}

/// The pieces of a source, each once.
pub fn pieces_of(alloc: Global, list: &[Directive]) -> Result<IndexSet<PieceOf>, AllocError>
    ensures { IfOk result (λ pieces. pieces.keys ≡ turn.pieces_of list.now) }
{
    let mut turns = Turns::new(alloc);
    let mut pieces = IndexSet::new(alloc);
    for directive in list {
        add_pieces_at(alloc, &directive.what, &turns, &mut pieces)?;
        turns.pass(alloc, &directive.what)?;
    }
    Ok(pieces)
}
