//! Which blocks are on where some items are chosen.

use crate::starts::{always_built, free_starts};
use cpp_blocks::{Blocks, block_facts};
use std::alloc::{AllocError, Global};
use std::fmt::Write;
use std::test::Fail;
use ut_logic::{Assign, Facts, Item, eval};

fn facts(alloc: Global, blocks: &Blocks) -> Result<Facts, Fail> {
    let starts = free_starts(alloc, blocks.macro_names().len())?;
    Ok(block_facts(alloc, blocks, 0, &starts, always_built(alloc))?)
}

/// The items, with those of the definitions that are true under them, and without those that are not.
fn settled(
    alloc: Global,
    facts: &Facts,
    chosen: &[Item],
    now: &[Item],
) -> Result<Vec<Item>, AllocError> {
    let before = Assign::new(Vec::from_slice(alloc, now)?);
    let mut items = Vec::from_slice(alloc, chosen)?;
    for fact in facts.list.as_slice() {
        for definition in fact.defines.as_slice() {
            if eval(&definition.formula, &before) {
                items.push(definition.item)?;
            }
        }
    }
    Ok(items)
}

/// The item that a word chooses: a name's start, whether it is true there, a piece, or a line.
fn item(word: &str) -> Option<Item> {
    let (kind, number) = word.split_at_checked(1)?;
    let number = number.parse::<u32>().ok()?;
    match kind {
        "d" => Some(Item::StartD {
            file: 0,
            name: number,
        }),
        "t" => Some(Item::StartT {
            file: 0,
            name: number,
        }),
        "p" => Some(Item::Piece {
            file: 0,
            piece: number,
        }),
        "l" => Some(Item::Line {
            file: 0,
            line: number,
        }),
        _ => None,
    }
}

/// The items that words choose.
pub fn chosen(alloc: Global, words: &str) -> Result<Vec<Item>, AllocError> {
    let mut items = Vec::new(alloc);
    for word in words.split(' ') {
        if let Some(item) = item(word) {
            items.push(item)?;
        }
    }
    Ok(items)
}

/// The items that hold where these are chosen: each fact is settled as often as there are facts.
fn holding(alloc: Global, blocks: &Blocks, chosen: &[Item]) -> Result<Assign, Fail> {
    let facts = facts(alloc, blocks)?;
    let mut items = Vec::from_slice(alloc, chosen)?;
    for _ in 0..facts.list.len() {
        items = settled(alloc, &facts, chosen, &items)?;
    }
    Ok(Assign::new(items))
}

/// The blocks that are on where the items of these words are chosen, with a blank between.
pub fn on(alloc: Global, blocks: &Blocks, words: &str) -> Result<String, Fail> {
    let all = holding(alloc, blocks, &chosen(alloc, words)?)?;
    let mut on = String::new(alloc);
    let mut before = "";
    for block in 1..=blocks.count() {
        if all.has(Item::Block { file: 0, block }) {
            write!(on, "{before}{block}")?;
            before = " ";
        }
    }
    Ok(on)
}
