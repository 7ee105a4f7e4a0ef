//! The same by the run itself, with no fact.

use crate::running::chosen;
use cpp_blocks::{Blocks, MacroState, RunStart, blocks_on};
use indexmap::IndexSet;
use std::alloc::{AllocError, Global};
use std::fmt::Write;
use std::test::Fail;
use ut_logic::{Assign, Item};

/// The state that a name has at the start.
fn state(items: &Assign, name: u32) -> MacroState {
    if !items.has(Item::StartD { file: 0, name }) {
        return MacroState::Undefined;
    }
    if items.has(Item::StartT { file: 0, name }) {
        MacroState::DefinedTrue
    } else {
        MacroState::DefinedFalse
    }
}

/// The lines of the directives that are chosen.
fn true_lines(alloc: Global, blocks: &Blocks, items: &Assign) -> Result<IndexSet<u32>, Fail> {
    let mut lines = IndexSet::new(alloc);
    for directive in blocks.directives() {
        let line = directive.line;
        if items.has(Item::Line { file: 0, line }) {
            lines.insert(line)?;
        }
    }
    Ok(lines)
}

/// The start that these words choose for a source that is built.
fn run_start(alloc: Global, blocks: &Blocks, words: &str) -> Result<RunStart, Fail> {
    let items = Assign::new(chosen(alloc, words)?);
    let mut macros = Vec::new(alloc);
    for place in 0..blocks.macro_names().len() {
        let name = u32::try_from(place).map_err(|_| "a number")?;
        macros.push(state(&items, name))?;
    }
    let mut pieces = Vec::new(alloc);
    for place in 0..blocks.pieces().len() {
        let piece = u32::try_from(place).map_err(|_| "a number")?;
        pieces.push(items.has(Item::Piece { file: 0, piece }))?;
    }
    let lines = true_lines(alloc, blocks, &items)?;
    Ok(RunStart {
        built: true,
        macros,
        pieces,
        lines,
    })
}

/// Whether a block is on.
fn is_at(truths: &[bool], block: u32) -> bool {
    truths.get(block as usize).copied().unwrap_or(false)
}

/// Adds a block's number where it is on, after a blank where it is not the first.
fn push_block(text: &mut String, truths: &[bool], block: u32) -> Result<(), AllocError> {
    if !is_at(truths, block) {
        return Ok(());
    }
    if !text.is_empty() {
        text.push(' ')?;
    }
    write!(text, "{block}")?;
    Ok(())
}

/// Adds the numbers of the blocks that are on, from block 1 to the last.
fn push_on(text: &mut String, truths: &[bool], last: u32) -> Result<(), AllocError> {
    for block in 1..=last {
        push_block(text, truths, block)?;
    }
    Ok(())
}

/// The blocks that are on in the run from the start that these words choose, with a blank between.
pub fn on_in_run(alloc: Global, blocks: &Blocks, words: &str) -> Result<String, Fail> {
    let truths = blocks_on(alloc, blocks, &run_start(alloc, blocks, words)?)?;
    let mut on = String::new(alloc);
    push_on(&mut on, truths.as_slice(), blocks.count())?;
    Ok(on)
}
