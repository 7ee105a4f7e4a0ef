//! What is asked of the trees of Kconfig texts.

use crate::writing::{held, named, push_formula};
use kconf_constr::{constraints, free_constraints, free_not_n, is_y, not_n};
use kconf_entries::Expr;
use kconf_tree::Tree;
use std::alloc::Global;
use std::test::Fail;
use test_texts::{entries_of, imply_tree_of, tree_of, tristate_tree_of};

/// What the facts of a text's tree hold, a line for each.
pub fn held_of(alloc: Global, text: &str) -> Result<String, Fail> {
    held(alloc, &constraints(alloc, &tree_of(alloc, text)?)?)
}

/// The same where the tree's undeclared names are free.
pub fn held_free_of(alloc: Global, text: &str) -> Result<String, Fail> {
    let tree = tree_of(alloc, text)?;
    let names = tree.undeclared(alloc)?;
    held(alloc, &free_constraints(alloc, &tree, &names)?)
}

/// The same where each `select` of the text stands for `imply`.
pub fn held_implied_of(alloc: Global, text: &str) -> Result<String, Fail> {
    held(alloc, &constraints(alloc, &imply_tree_of(alloc, text)?)?)
}

/// The same where each choice of the text stands for a tristate one.
pub fn held_tristate_of(alloc: Global, text: &str) -> Result<String, Fail> {
    held(alloc, &constraints(alloc, &tristate_tree_of(alloc, text)?)?)
}

/// What the facts name where each `select` of the text stands for `imply`.
pub fn named_implied_of(alloc: Global, text: &str) -> Result<String, Fail> {
    named(alloc, &constraints(alloc, &imply_tree_of(alloc, text)?)?)
}

/// What the facts name where each choice of the text stands for a tristate one.
pub fn named_tristate_of(alloc: Global, text: &str) -> Result<String, Fail> {
    named(alloc, &constraints(alloc, &tristate_tree_of(alloc, text)?)?)
}

/// What the facts of a text's tree name, and their items, a line for each.
pub fn named_of(alloc: Global, text: &str) -> Result<String, Fail> {
    named(alloc, &constraints(alloc, &tree_of(alloc, text)?)?)
}

/// A condition.
fn expr(alloc: Global, condition: &str) -> Result<Expr, Fail> {
    let text = format!(in alloc; "config X\ndepends on {condition}")?;
    let entries = entries_of(alloc, text.as_str())?;
    let config = entries.configs.as_slice().first().ok_or("a config")?;
    Ok(config.depends.copy(alloc)?)
}

/// That a condition isn't n, and that it is y, with one blank between.
pub fn formulas_of(alloc: Global, tree: &Tree, condition: &str) -> Result<String, Fail> {
    let e = expr(alloc, condition)?;
    let mut text = String::new(alloc);
    push_formula(&mut text, &not_n(alloc, tree, &e)?)?;
    text.push_str(" ")?;
    push_formula(&mut text, &is_y(alloc, tree, &e)?)?;
    Ok(text)
}

/// That a condition isn't n where the tree's undeclared names are free.
pub fn free_formula_of(alloc: Global, tree: &Tree, condition: &str) -> Result<String, Fail> {
    let names = tree.undeclared(alloc)?;
    let e = expr(alloc, condition)?;
    let mut text = String::new(alloc);
    push_formula(&mut text, &free_not_n(alloc, tree, &names, &e)?)?;
    Ok(text)
}
