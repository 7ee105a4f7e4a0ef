//! What is asked of the trees of Kconfig texts.

use kconf_entries::{ChoiceEntry, ConfigEntry, Entries, Kind, Side, Sign};
use kconf_tree::{Selector, Tree, TreeBad};
use std::alloc::{AllocError, Global};
use std::fmt::Write;
use std::mem::swap;
use std::test::Fail;
use test_texts::{build, entries_of, tree_of};
use ut_logic::{Node, Sequence, Text};

/// Each select as an imply.
fn implying(list: Sequence<ConfigEntry>) -> Sequence<ConfigEntry> {
    let mut list = list.into_vec();
    for config in list.iter_mut() {
        swap(&mut config.selects, &mut config.implies);
    }
    Sequence::from_vec(list)
}

/// Each choice with type tristate.
fn tristate(list: Sequence<ChoiceEntry>) -> Sequence<ChoiceEntry> {
    let mut list = list.into_vec();
    for choice in list.iter_mut() {
        choice.kind = Kind::Tristate;
    }
    Sequence::from_vec(list)
}

/// The entries of a text. Implies and choices of type tristate, which the reader does not take yet, are read as
/// selects and choices of type bool; where a text has one, it has none of the latter.
fn entries(alloc: Global, text: &str) -> Result<Entries, Fail> {
    let plain = text.replace(alloc, "imply ", "select ")?;
    let plain = plain.replace(alloc, "choice; tristate ", "choice; bool ")?;
    let mut entries = entries_of(alloc, plain.as_str())?;
    if text.contains("imply ") {
        entries.configs = implying(entries.configs);
    }
    if text.contains("choice; tristate ") {
        entries.choices = tristate(entries.choices);
    }
    Ok(entries)
}

/// The tree of a text.
fn tree(alloc: Global, text: &str) -> Result<Tree, Fail> {
    Ok(build(alloc, entries(alloc, text)?)?)
}

/// The letter of a node: a symbol has its name, a choice `a` or `b`.
fn letter(node: Node) -> char {
    match node {
        Node::Sym(sym) if sym < 26 => char::from(b'A' + sym as u8),
        Node::Choice(choice) if choice < 26 => char::from(b'a' + choice as u8),
        _ => '?',
    }
}

/// The letters of nodes.
fn letters(alloc: Global, nodes: &[Node]) -> Result<String, AllocError> {
    let mut text = String::new(alloc);
    for node in nodes {
        text.push(letter(*node))?;
    }
    Ok(text)
}

/// The order of a text's tree, or its cycle and a `!`.
pub fn order_of(alloc: Global, text: &str) -> Result<String, Fail> {
    match build(alloc, entries(alloc, text)?) {
        Ok(tree) => Ok(letters(alloc, tree.order())?),
        Err(TreeBad::Recursive { cycle }) => {
            let mut text = letters(alloc, cycle.as_slice())?;
            text.push('!')?;
            Ok(text)
        }
        Err(bad) => Err(Fail::from(bad)),
    }
}

/// The names that a text's tree does not declare.
pub fn undeclared_of(alloc: Global, text: &str) -> Result<String, Fail> {
    let tree = tree(alloc, text)?;
    let mut names = String::new(alloc);
    for name in tree.undeclared(alloc)? {
        names.push_str(name.text())?;
    }
    Ok(names)
}

/// Who selects, each with the place of the select among its own.
fn selecting(alloc: Global, selectors: &[Selector]) -> Result<String, AllocError> {
    let mut text = String::new(alloc);
    for selector in selectors {
        text.push(letter(Node::Sym(selector.by)))?;
        write!(text, "{}", selector.nth)?;
    }
    Ok(text)
}

/// Who selects the first symbol of a text.
pub fn selectors_of(alloc: Global, text: &str) -> Result<String, Fail> {
    let tree = tree(alloc, text)?;
    if tree.symbols() == 0 {
        return Err(Fail::from("no symbol"));
    }
    Ok(selecting(alloc, tree.selectors(0))?)
}

/// Adds a number, `-` for none.
fn push_number(text: &mut String, number: Option<u64>) -> Result<(), AllocError> {
    match number {
        Some(number) => Ok(write!(text, "{number}")?),
        None => text.push('-'),
    }
}

/// The numbers of the comparison `B < C` as an outer condition: by its text, and by its sides.
pub fn numbers_of(alloc: Global, text: &str) -> Result<String, Fail> {
    let tree = tree_of(alloc, text)?;
    let left = Side::Name(Text::new(alloc, "B")?);
    let right = Side::Name(Text::new(alloc, "C")?);
    let mut numbers = String::new(alloc);
    push_number(&mut numbers, tree.outer_number("B < C"))?;
    push_number(
        &mut numbers,
        tree.comparison_number(&left, Sign::Less, &right),
    )?;
    Ok(numbers)
}
