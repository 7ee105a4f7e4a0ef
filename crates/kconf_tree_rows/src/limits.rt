use kconf_tree::{Tree, TreeBad};
use std::alloc::{AllocError, Global};
use std::fmt::Write;
use std::test::Fail;
use test_texts::{build, check_lines, entries_of, tree_of};
use ut_base::Limit;

/// A choice of so many members.
fn members(alloc: Global, count: u32) -> Result<String, AllocError> {
    let mut text = String::from_str(alloc, "choice\n")?;
    for number in 0..count {
        write!(text, "config S{number}\nbool\n")?;
    }
    text.push_str("endchoice\n")?;
    Ok(text)
}

/// A choice of one member with so many defaults.
fn defaults(alloc: Global, count: u32) -> Result<String, AllocError> {
    let mut text = String::from_str(alloc, "choice\nconfig A\nbool\n")?;
    for _number in 0..count {
        text.push_str("default y\n")?;
    }
    text.push_str("endchoice\n")?;
    Ok(text)
}

/// So many symbols, each with a prompt if the next one.
fn links(alloc: Global, count: u32) -> Result<String, AllocError> {
    let mut text = String::new(alloc);
    for number in 0..count {
        write!(
            text,
            "config S{number}\nbool \"s\" if S{}\n",
            number as u64 + 1
        )?;
    }
    Ok(text)
}

/// The text of a row: `members`, `defaults` or `links`, and how many.
fn text_of(alloc: Global, given: &str) -> Result<String, Fail> {
    let (word, count) = given.split_once(' ').ok_or("a word and a number")?;
    let count = count.parse::<u32>()?;
    match word {
        "members" => Ok(members(alloc, count)?),
        "defaults" => Ok(defaults(alloc, count)?),
        "links" => Ok(links(alloc, count)?),
        _ => Err(Fail::from("another word")),
    }
}

/// The word of a limit.
fn word(what: Limit) -> &'static str {
    match what {
        Limit::Symbols => "symbols",
        Limit::Members => "members",
        Limit::Defaults => "defaults",
        _ => "other",
    }
}

/// Which limit a row's text passes, and how many there are.
fn passed_by(alloc: Global, given: &str) -> Result<String, Fail> {
    let text = text_of(alloc, given)?;
    match build(alloc, entries_of(alloc, text.as_str())?) {
        Ok(_) => Ok(String::from_str(alloc, "none")?),
        Err(TreeBad::TooMany { what, count }) => Ok(format!(in alloc; "{} {count}", word(what))?),
        Err(bad) => Err(Fail::from(bad)),
    }
}

/// Symbols come before members, and the limits are the last counts that are taken.
const LIMITS: &str = "
members 1024 => none
members 1025 => members 1025
members 65536 => members 65536
members 65537 => symbols 65537
defaults 1024 => none
defaults 1025 => defaults 1025
";

#[test]
fn limits_are_the_last_counts(rt: HostRuntime) -> Result<(), Fail> {
    check_lines(rt.alloc(), LIMITS, passed_by)
}

/// How long the order of a row's tree is, with its first and last node.
fn ends_of(alloc: Global, given: &str) -> Result<String, Fail> {
    let tree: Tree = tree_of(alloc, text_of(alloc, given)?.as_str())?;
    let order = tree.order();
    let (first, last) = (order.first(), order.last());
    Ok(format!(in alloc; "{} {first:?} {last:?}", order.len())?)
}

/// The search keeps its path in memory: as many symbols as there may be, each before the next.
const LINKS: &str = "
links 65536 => 65536 Some(Sym(65535)) Some(Sym(0))
";

#[test]
fn a_long_chain_has_an_order(rt: HostRuntime) -> Result<(), Fail> {
    check_lines(rt.alloc(), LINKS, ends_of)
}
