ghost use Rattle.std.specs.Prelude.{◌≡◌, IfOk, MatchOption, codes, false, map, option_map, true, []};
ghost use Rattle.std.specs.List.{after_first, before_first, list_all, list_any};
ghost use Rattle.std.specs.Option.{option_map_or};
ghost use Rattle.ut_text.specs.ByteClasses.{is_hex_digit};
ghost use Rattle.ut_words.specs.Options.{options};
ghost use Rattle.ut_words.specs.Reading.{Reads, Tests, some_if};
ghost use Rattle.ut_words.specs.Said.{Said, given};
ghost use Rattle.ut_words.specs.Spelled.{is_sign};
ghost use Rattle.ut_words.specs.Values as spec;
ghost use Rattle.ut_words.specs.Words.{are_right};
ghost use Rattle.ut_words.specs.declared.order.UsageKind.TheVariants as usage;

use crate::bad::WordsBad;
use crate::distinct::are_distinct;
use crate::numbers::are_digits;
use crate::order::UsageKind;
use crate::reading::value;
use clap::ArgMatches;
use kconf_entries::Var;
use std::alloc::{AllocError, Global};
use ut_logic::Sequence;
use ut_text::{Text, are_name_bytes, is_hex_digit};

/// The values for macros that are given, if each has the form and no name stands twice.
pub fn vars_in(alloc: Global, matches: &ArgMatches<'_>) -> Result<Sequence<Var>, WordsBad>
    ensures { (said : Said) → Reads said matches.now
        → Tests usage.Var (are_right usage.Var options said) (option_map_or spec.vars_of (given (codes "--var") said) []) result }
{
    let Some(text) = value(matches, "--var") else {
        return Ok(Sequence::new(alloc));
    };
    match vars_of(alloc, text)? {
        Some(vars) => Ok(Sequence::from_vec(vars)),
        None => Err(WordsBad::Usage(UsageKind::Var)),
    }
}

fn vars_of(alloc: Global, text: &str) -> Result<Option<Vec<Var>>, AllocError>
    ensures { IfOk result (λ found. option_map (λ vars. vars.items) found ≡ some_if (spec.are_vars text.now) (spec.vars_of text.now)) }
{
    let items = items_of(alloc, text)?;
    let Some(vars) = each_var(alloc, items.as_slice())? else {
        return Ok(None);
    };
    let names = names_of(alloc, items.as_slice())?;
    if !are_distinct(alloc, names.as_slice())? {
        return Ok(None);
    }
    Ok(Some(vars))
}

// The items that commas join.
fn items_of(alloc: Global, text: &str) -> Result<Vec<&str>, AllocError>
    ensures { IfOk result (λ items. map (λ item. item.now) items.items ≡ spec.items_of text.now) }
{
    if text.is_empty() {
        return Ok(Vec::new(alloc));
    }
    text.split(',').collect(alloc)
}

fn each_var(alloc: Global, items: &[&str]) -> Result<Option<Vec<Var>>, AllocError>
    ensures { IfOk result (λ found. option_map (λ vars. vars.items) found
        ≡ some_if (list_all spec.is_item (map (λ item. item.now) items.now)) (map spec.var_of (map (λ item. item.now) items.now))) }
{
    let mut vars = Vec::new(alloc);
    for item in items {
        let Some(var) = var_of(alloc, item)? else {
            return Ok(None);
        };
        vars.push(var)?;
    }
    Ok(Some(vars))
}

fn var_of(alloc: Global, item: &str) -> Result<Option<Var>, AllocError>
    ensures { IfOk result (λ found. found ≡ some_if (spec.is_item item.now) (spec.var_of item.now)) }
{
    let Some((name, value)) = split_at_sign(item) else {
        return Ok(None);
    };
    if !is_macro_name(name) {
        return Ok(None);
    }
    if !are_printable(value.as_bytes()) {
        return Ok(None);
    }
    let name = Text::new(alloc, name)?;
    let value = Text::new(alloc, value)?;
    Ok(Some(Var { name, value }))
}

// What stands before the first `=` and what stands after it, if there is one.
fn split_at_sign(item: &str) -> Option<(&str, &str)>
    ensures { MatchOption result (list_any is_sign item.now ≡ false)
        (λ parts. (list_any is_sign item.now ≡ true) × (parts.0.now ≡ before_first is_sign item.now) × (parts.1.now ≡ after_first is_sign item.now)) }
{
    item.split_once('=')
}

// The names of the items.
fn names_of<'a>(alloc: Global, items: &[&'a str]) -> Result<Vec<&'a str>, AllocError>
    ensures { IfOk result (λ names. map (λ name. name.now) names.items ≡ map (before_first is_sign) (map (λ item. item.now) items.now)) }
{
    let mut names = Vec::new(alloc);
    for item in items {
        names.push(name_of(item))?;
    }
    Ok(names)
}

// What stands before the first `=`.
fn name_of(item: &str) -> &str
    ensures { result.now ≡ before_first is_sign item.now }
{
    match item.split_once('=') {
        Some((name, _)) => name,
        None => item,
    }
}

// A name as symbols have it: letters, digits and `_`, and neither a literal nor a constant.
fn is_macro_name(text: &str) -> bool
    ensures { result ≡ spec.is_macro_name text.now }
{
    let bytes = text.as_bytes();
    !bytes.is_empty()
        && are_name_bytes(bytes)
        && !is_literal(bytes)
        && text != "y"
        && text != "m"
        && text != "n"
}

// Digits, or `0x` and hexadecimal digits.
fn is_literal(text: &[u8]) -> bool
    ensures { result ≡ spec.is_literal text.now }
{
    (!text.is_empty() && are_digits(text))
        || (text.starts_with(b"0x") && has_hex_digits(&text[2..]))
}

fn has_hex_digits(text: &[u8]) -> bool
    ensures { result ≡ spec.all_and_some is_hex_digit text.now }
{
    !text.is_empty() && are_hex_digits(text)
}

fn are_hex_digits(text: &[u8]) -> bool
    ensures { result ≡ list_all is_hex_digit text.now }
{
    text.iter().all(|byte| is_hex_digit(*byte))
}

fn are_printable(text: &[u8]) -> bool
    ensures { result ≡ list_all spec.is_printable text.now }
{
    text.iter().all(|byte| is_printable(*byte))
}

fn is_printable(byte: u8) -> bool
    ensures { result ≡ spec.is_printable byte }
{
    byte >= b' ' && byte <= b'~'
}
