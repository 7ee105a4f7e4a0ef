//! What is asked of the trees of Kconfig texts with configurations.

use crate::configs::{config_of, known_of, push_letter};
use complete_conf::{Config, calc, complete, config_text, is_valid};
use kconf_tree::Tree;
use std::alloc::{AllocError, Global};
use std::test::Fail;
use test_texts::{imply_tree_of, tree_of, tristate_tree_of};

/// The tree of a text. Where it begins with `imply; ` each `select` of the rest stands for `imply`, where it begins with
/// `tristate; ` each choice for a tristate one.
fn tree_by(alloc: Global, text: &str) -> Result<Tree, Fail> {
    if let Some(rest) = text.strip_prefix("imply; ") {
        return imply_tree_of(alloc, rest);
    }
    if let Some(rest) = text.strip_prefix("tristate; ") {
        return tristate_tree_of(alloc, rest);
    }
    tree_of(alloc, text)
}

/// The tree of a row, and the words before its text.
fn parts(alloc: Global, row: &str) -> Result<(Tree, &str), Fail> {
    let (words, text) = row.split_once(" | ").ok_or("words and a text")?;
    Ok((tree_by(alloc, text)?, words))
}

/// The first word, and the others.
fn first(words: &str) -> (&str, &str) {
    words.split_once(" ").unwrap_or((words, ""))
}

/// Whether a configuration is valid, `y` or `n`: its values, modes and outer truths.
pub fn validity_of(alloc: Global, row: &str) -> Result<String, Fail> {
    let (tree, words) = parts(alloc, row)?;
    let (values, words) = first(words);
    let (modes, outers) = first(words);
    let config = config_of(alloc, &tree, values, modes, outers)?;
    let word = if is_valid(&tree, &config) { "y" } else { "n" };
    Ok(String::from_str(alloc, word)?)
}

/// The values and modes of a configuration, with `,` between.
fn written(alloc: Global, tree: &Tree, config: &Config) -> Result<String, AllocError> {
    let mut text = String::new(alloc);
    for sym in 0..tree.symbols() {
        push_letter(&mut text, config.value(sym))?;
    }
    text.push(',')?;
    for choice in 0..tree.choices() {
        push_letter(&mut text, config.mode(choice))?;
    }
    Ok(text)
}

/// The completed configuration: its values and which are known, its modes and which are known.
pub fn completed(alloc: Global, row: &str) -> Result<String, Fail> {
    let (tree, words) = parts(alloc, row)?;
    let (values, words) = first(words);
    let (syms, words) = first(words);
    let (modes, choices) = first(words);
    let mut config = config_of(alloc, &tree, values, modes, "")?;
    complete(&tree, &mut config, &known_of(alloc, syms, choices)?);
    Ok(written(alloc, &tree, &config)?)
}

/// The value of a symbol of a tree without a user's setting: the values, the modes and the symbol's number.
pub fn value_of(alloc: Global, row: &str) -> Result<String, Fail> {
    let (tree, words) = parts(alloc, row)?;
    let (values, words) = first(words);
    let (modes, sym) = first(words);
    let sym = sym.parse::<u32>()?;
    let config = config_of(alloc, &tree, values, modes, "")?;
    if tree.symbols() <= sym {
        return Err(Fail::from("no such symbol"));
    }
    let mut text = String::new(alloc);
    push_letter(&mut text, calc(&tree, &config, sym))?;
    Ok(text)
}

/// The text of a configuration of these values.
pub fn text_of(alloc: Global, row: &str) -> Result<String, Fail> {
    let (tree, values) = parts(alloc, row)?;
    let config = config_of(alloc, &tree, values, "", "")?;
    Ok(String::from_utf8(config_text(alloc, &tree, &config)?)?)
}
