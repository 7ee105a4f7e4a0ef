//! Facts as words: `y0` that symbol 0 is y, `m0` that it is m, `u0` an undeclared name, `c0` that the mode of a
//! choice is y, `d0` that it is m, `o0` an outer condition.

use std::alloc::Global;
use std::test::Fail;
use ut_logic::{Fact, Facts, Formula, Item, Node};

/// A letter with a number.
fn push_number(text: &mut String, letter: &str, number: u64) -> Result<(), Fail> {
    let digits = ["0", "1", "2", "3", "4", "5", "6", "7", "8", "9"];
    text.push_str(letter)?;
    text.push_str(digits.get(number as usize).copied().unwrap_or("?"))?;
    Ok(())
}

/// An item.
fn push_item(text: &mut String, item: Item) -> Result<(), Fail> {
    match item {
        Item::SymY(sym) => push_number(text, "y", sym as u64),
        Item::SymM(sym) => push_number(text, "m", sym as u64),
        Item::Undeclared(number) => push_number(text, "u", number),
        Item::ModeY(choice) => push_number(text, "c", choice as u64),
        Item::ModeM(choice) => push_number(text, "d", choice as u64),
        Item::Outer(number) => push_number(text, "o", number),
        _ => Err(Fail::from("an item")),
    }
}

/// A node.
fn push_node(text: &mut String, node: Node) -> Result<(), Fail> {
    match node {
        Node::Sym(sym) => push_number(text, "s", sym as u64),
        Node::Choice(choice) => push_number(text, "c", choice as u64),
        _ => Err(Fail::from("a node")),
    }
}

/// A formula.
#[cycle(writing)]
pub fn push_formula(text: &mut String, formula: &Formula) -> Result<(), Fail> {
    match formula {
        Formula::Yes => Ok(text.push_str("yes")?),
        Formula::No => Ok(text.push_str("no")?),
        Formula::Is(item) => push_item(text, *item),
        Formula::Neg(inner) => {
            text.push_str("!")?;
            push_formula(text, inner.get())
        }
        Formula::AllOf(list) => push_list(text, "&", list.as_slice()),
        Formula::AnyOf(list) => push_list(text, "|", list.as_slice()),
    }
}

/// Formulas in parentheses, with a sign between.
#[cycle(writing)]
fn push_list(text: &mut String, sign: &str, list: &[Formula]) -> Result<(), Fail> {
    text.push_str("(")?;
    let mut is_first = true;
    for part in list {
        if !is_first {
            text.push_str(sign)?;
        }
        push_formula(text, part)?;
        is_first = false;
    }
    text.push_str(")")?;
    Ok(())
}

/// What a fact holds, with one blank between.
fn push_holds(text: &mut String, fact: &Fact) -> Result<(), Fail> {
    let mut is_first = true;
    for formula in fact.holds.as_slice() {
        if !is_first {
            text.push_str(" ")?;
        }
        push_formula(text, formula)?;
        is_first = false;
    }
    Ok(())
}

/// What each fact holds, a line for each.
pub fn held(alloc: Global, facts: &Facts) -> Result<String, Fail> {
    let mut text = String::new(alloc);
    for fact in facts.list.as_slice() {
        push_holds(&mut text, fact)?;
        text.push_str("\n")?;
    }
    Ok(text)
}

/// The nodes that a fact names.
fn push_names(text: &mut String, fact: &Fact) -> Result<(), Fail> {
    for node in fact.names.as_slice() {
        push_node(text, *node)?;
    }
    Ok(())
}

/// The items of a fact.
fn push_items(text: &mut String, fact: &Fact) -> Result<(), Fail> {
    for item in fact.items.as_slice() {
        push_item(text, *item)?;
    }
    Ok(())
}

/// The node, the names and the items of each fact, a line for each.
pub fn named(alloc: Global, facts: &Facts) -> Result<String, Fail> {
    let mut text = String::new(alloc);
    for fact in facts.list.as_slice() {
        push_node(&mut text, fact.node)?;
        text.push_str(":")?;
        push_names(&mut text, fact)?;
        text.push_str(":")?;
        push_items(&mut text, fact)?;
        text.push_str("\n")?;
    }
    Ok(text)
}
