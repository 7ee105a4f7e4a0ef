//! Configurations written in letters, for tables; `-` is none.
ghost use Rattle.std.specs.Prelude.{IfOk};
ghost use Rattle.complete_conf.specs.Config.{FitsTree};

use complete_conf::{Config, Known};
use kconf_tree::Tree;
use sqlite_items::Items;
use std::alloc::{AllocError, Global};
use std::test::Fail;
use ut_logic::Trit;

/// The value of a letter.
fn trit(letter: u8) -> Trit {
    match letter {
        b'y' => Trit::Y,
        b'm' => Trit::M,
        _ => Trit::N,
    }
}

/// The truths of digits.
fn flags(alloc: Global, text: &str) -> Result<Items<bool>, AllocError> {
    let mut list = Items::new(alloc);
    for digit in text.as_bytes() {
        if *digit != b'-' {
            list.push(*digit == b'1')?;
        }
    }
    Ok(list)
}

/// The letter of a value.
fn letter(trit: Trit) -> char {
    match trit {
        Trit::N => 'n',
        Trit::M => 'm',
        Trit::Y => 'y',
    }
}

/// Writes the letter of a value.
pub fn push_letter(text: &mut String, trit: Trit) -> Result<(), AllocError> {
    text.push(letter(trit))
}

/// The letters of a word; `-` has none.
fn letters(word: &str) -> &[u8] {
    if word == "-" {
        "".as_bytes()
    } else {
        word.as_bytes()
    }
}

/// Sets the values of the symbols, a letter for each.
fn set_values(tree: &Tree, config: &mut Config, letters: &[u8]) -> Result<(), Fail>
    requires { FitsTree tree.now.shape config.old }
    ensures { FitsTree tree.now.shape config.new }
{
    if letters.len() != tree.symbols() as usize {
        return Err(Fail::from("another count of values"));
    }
    for sym in 0..tree.symbols() {
        config.set_value(sym, trit(letters[sym as usize]));
    }
    Ok(())
}

/// Sets the modes of the choices, a letter for each.
fn set_modes(tree: &Tree, config: &mut Config, letters: &[u8]) -> Result<(), Fail>
    requires { FitsTree tree.now.shape config.old }
    ensures { FitsTree tree.now.shape config.new }
{
    if letters.len() != tree.choices() as usize {
        return Err(Fail::from("another count of modes"));
    }
    for choice in 0..tree.choices() {
        config.set_mode(choice, trit(letters[choice as usize]));
    }
    Ok(())
}

/// Sets the truths of the outer conditions, a digit for each; past the last digit they stay false.
fn set_outers(tree: &Tree, config: &mut Config, digits: &[u8])
    requires { FitsTree tree.now.shape config.old }
    ensures { FitsTree tree.now.shape config.new }
{
    for number in 0..tree.outers() {
        if let Some(digit) = digits.get(number as usize) {
            config.set_outer(number, *digit == b'1');
        }
    }
}

/// A configuration of a tree. An error is another count of values or of modes than the tree's, or want of memory.
pub fn config_of(
    alloc: Global,
    tree: &Tree,
    values: &str,
    modes: &str,
    outers: &str,
) -> Result<Config, Fail>
    ensures { IfOk result (FitsTree tree.now.shape) }
{
    let mut config = Config::none(alloc, tree)?;
    set_values(tree, &mut config, letters(values))?;
    set_modes(tree, &mut config, letters(modes))?;
    set_outers(tree, &mut config, letters(outers));
    Ok(config)
}

/// What is known.
pub fn known_of(alloc: Global, syms: &str, choices: &str) -> Result<Known, AllocError> {
    let syms = flags(alloc, syms)?;
    let choices = flags(alloc, choices)?;
    Ok(Known { syms, choices })
}
