//! The further lines of a group on what stands outside a configuration: starts, truths, pieces and lines of the sources.

ghost use Rattle.std.specs.Prelude.{◌≡◌, ◌++◌, ◌∷◌, [], Bool, OnOk, codes, decimal, if◌then◌else◌, slice_get, suc, IsSorted};
ghost use Rattle.std.specs.List.{flat_map};
ghost use Rattle.std.specs.Option.{option_copied};
ghost use Rattle.ut_logic.specs.Assign.{is_in};
ghost use Rattle.ut_logic.specs.Item.{item_cmp};
ghost use Rattle.cpp_blocks.specs.Mentions.{names_of};
ghost use Rattle.cpp_blocks.specs.Turns as turns;
ghost use Rattle.ut_case.specs.Problem.{directives_at};
ghost use Rattle.ut_case.specs.Wholes.{Fits, case_of};
ghost use Rattle.ut_report.specs.Groups.{group_word, in_file, kind_lines};
ghost use Rattle.ut_report.specs.Lines.{text_of};
ghost use Rattle.report_lines.specs.Inside.{environment_kinds, given, is_again, item_text, items_text, kind_text, piece_text, start_text};

use crate::further::push_tag;
use crate::numbers::push_count;
use crate::reported::Reported;
use cpp_blocks::PieceOf;
use std::alloc::AllocError;
use ut_case::Whole;
use ut_logic::{Assign, Item, Text};

// ---- lines

/// Appends what a line on a source begins with: its tag, and the number of the source, counted from 1.
fn push_file(text: &mut Vec<u8>, on: bool, tag: &str, file: u32) -> Result<(), AllocError>
    ensures { OnOk result (text.new.items ≡ text.old.items ++ (group_word on ++ codes "-" ++ tag.now ++ codes ": " ++ in_file file [])) }
{
    push_tag(text, on, tag)?;
    push_count(text, "", u64::from(file) + 1)?;
    text.extend_from_slice(b" ")
}

/// The word of a truth.
fn word_of_truth(is_true: bool) -> &'static str
    ensures { result.now ≡ (if is_true then codes " true" else codes " false") }
{
    if is_true { " true" } else { " false" }
}

/// Appends the line of a macro that starts defined.
fn push_start(
    text: &mut Vec<u8>,
    on: bool,
    file: u32,
    name: &str,
    is_true: bool,
) -> Result<(), AllocError>
    ensures { OnOk result (text.new.items ≡ text.old.items ++ kind_text on (codes "start") (start_text is_true file name.now ∷ [])) }
{
    push_file(text, on, "start", file)?;
    text.extend_from_slice(name.as_bytes())?;
    text.extend_from_slice(word_of_truth(is_true).as_bytes())?;
    text.extend_from_slice(b"\n")
}

/// Appends the line of a true macro of a written symbol.
fn push_truth(text: &mut Vec<u8>, on: bool, file: u32, name: &str) -> Result<(), AllocError>
    ensures { OnOk result (text.new.items ≡ text.old.items ++ kind_text on (codes "truth") (in_file file name.now ∷ [])) }
{
    push_file(text, on, "truth", file)?;
    text.extend_from_slice(name.as_bytes())?;
    text.extend_from_slice(b"\n")
}

/// Appends a piece behind its number of earlier macro lines.
fn push_piece_text(text: &mut Vec<u8>, piece: &PieceOf) -> Result<(), AllocError>
    ensures { OnOk result (text.new.items ≡ text.old.items ++ (decimal piece.now.turn ++ codes " " ++ piece.now.text)) }
{
    push_count(text, "", u64::from(piece.turn))?;
    text.extend_from_slice(b" ")?;
    text.extend_from_slice(piece.text.text().as_bytes())
}

/// Appends the line of a true piece.
fn push_piece(text: &mut Vec<u8>, on: bool, file: u32, piece: &PieceOf) -> Result<(), AllocError>
    ensures { OnOk result (text.new.items ≡ text.old.items ++ kind_text on (codes "piece") (piece_text file piece.now ∷ [])) }
{
    push_file(text, on, "piece", file)?;
    push_piece_text(text, piece)?;
    text.extend_from_slice(b"\n")
}

/// Appends the line of a true free `#define` line.
fn push_define(text: &mut Vec<u8>, on: bool, file: u32, line: u32) -> Result<(), AllocError>
    ensures { OnOk result (text.new.items ≡ text.old.items ++ kind_text on (codes "line") (in_file file (decimal line) ∷ [])) }
{
    push_file(text, on, "line", file)?;
    push_count(text, "", u64::from(line))?;
    text.extend_from_slice(b"\n")
}

// ---- items

/// The macro name with a number in a source.
fn macro_of<P: Reported>(problem: &P, file: u32, number: u32) -> Option<&Text>
    ensures { option_copied result ≡ slice_get (names_of (directives_at (P.problem problem.now) file)) number }
{
    match problem.blocks(file) {
        Some(blocks) => blocks.macro_names().get(number as usize),
        None => None,
    }
}

/// The piece with a number in a source.
fn piece_of<P: Reported>(problem: &P, file: u32, number: u32) -> Option<&PieceOf>
    ensures { option_copied result ≡ slice_get (turns.pieces_of (directives_at (P.problem problem.now) file)) number }
{
    match problem.blocks(file) {
        Some(blocks) => blocks.pieces().get(number as usize),
        None => None,
    }
}

/// Appends the line of a macro that starts defined, if there is one.
fn push_start_of(
    text: &mut Vec<u8>,
    on: bool,
    file: u32,
    name: Option<&Text>,
    is_true: bool,
) -> Result<(), AllocError>
    ensures { OnOk result (text.new.items ≡ text.old.items ++ kind_text on (codes "start") (given (start_text is_true file) (option_copied name.entry))) }
{
    match name {
        Some(name) => push_start(text, on, file, name.text(), is_true),
        None => Ok(()),
    }
}

/// Appends the line of a true macro of a written symbol, if there is one.
fn push_truth_of(
    text: &mut Vec<u8>,
    on: bool,
    file: u32,
    name: Option<&Text>,
) -> Result<(), AllocError>
    ensures { OnOk result (text.new.items ≡ text.old.items ++ kind_text on (codes "truth") (given (in_file file) (option_copied name.entry))) }
{
    match name {
        Some(name) => push_truth(text, on, file, name.text()),
        None => Ok(()),
    }
}

/// Appends the line of a true piece, if there is one.
fn push_piece_of(
    text: &mut Vec<u8>,
    on: bool,
    file: u32,
    piece: Option<&PieceOf>,
) -> Result<(), AllocError>
    ensures { OnOk result (text.new.items ≡ text.old.items ++ kind_text on (codes "piece") (given (piece_text file) (option_copied piece.entry))) }
{
    match piece {
        Some(piece) => push_piece(text, on, file, piece),
        None => Ok(()),
    }
}

/// Appends the line of a true item, if it has one.
fn push_item<P: Reported>(
    text: &mut Vec<u8>,
    problem: &P,
    env: &Assign,
    on: bool,
    item: Item,
) -> Result<(), AllocError>
    ensures { OnOk result (text.new.items ≡ text.old.items ++ item_text (P.problem problem.now) (is_in env.now) on item) }
{
    match item {
        Item::StartD { file, name } => {
            let is_true = env.has(Item::StartT { file, name });
            push_start_of(text, on, file, macro_of(problem, file, name), is_true)
        }
        Item::Truth { file, name } => {
            push_truth_of(text, on, file, macro_of(problem, file, name))
        }
        Item::Piece { file, piece } => {
            push_piece_of(text, on, file, piece_of(problem, file, piece))
        }
        Item::Line { file, line } => push_define(text, on, file, line),
        Item::SymY(_)
        | Item::SymM(_)
        | Item::Undeclared(_)
        | Item::ModeY(_)
        | Item::ModeM(_)
        | Item::Outer(_)
        | Item::Same { .. }
        | Item::Below { .. }
        | Item::StartT { .. }
        | Item::Block { .. }
        | Item::StateD { .. }
        | Item::StateT { .. } => Ok(()),
    }
}

/// Whether the item is the last one.
fn is_last(last: Option<Item>, item: Item) -> bool
    ensures { result ≡ is_again last item }
{
    match last {
        Some(last) => item == last,
        None => false,
    }
}

/// Appends the lines of the true items in order, each item once.
fn push_items<P: Reported>(
    text: &mut Vec<u8>,
    problem: &P,
    env: &Assign,
    on: bool,
) -> Result<(), AllocError>
    ensures text { OnOk result (text.new.items ≡ text.old.items ++ items_text (P.problem problem.now) on env.now) }
    ensures sorted { IsSorted item_cmp env.now }
{
    let mut last = None;
    for item in env.items() {
        if !is_last(last, *item) {
            push_item(text, problem, env, on, *item)?;
            last = Some(*item);
        }
    }
    Ok(())
}

/// Appends the lines of starts, truths, pieces and lines that are true, in this order.
pub fn push_environment<P: Reported>(
    text: &mut Vec<u8>,
    problem: &P,
    whole: &Whole,
    on: bool,
) -> Result<(), AllocError>
    requires { Fits (P.problem problem.now) whole.now }
    ensures { OnOk result (text.new.items ≡ text.old.items ++ text_of (flat_map (kind_lines on) (environment_kinds (P.problem problem.now) (case_of (P.problem problem.now) whole.now)))) }
{
    // Its clause says that the lines of each source rise.
    let _blocks = problem.blocks(0);
    push_items(text, problem, &whole.env, on)
}
