//! What reading Kconfig texts gives, in one text.

use crate::written::{entries_text, refusal_text};
use kconf_entries::{Entries, Var};
use kconf_parse::read_tree;
use kconf_texts::KconfBad;
use std::alloc::Global;
use std::test::Fail;
use test_rows::files_of;
use ut_base::{Meter, Name};
use ut_logic::Text;

/// A value that is handed in.
fn var(alloc: Global, name: &str, value: &str) -> Result<Var, Fail> {
    let name = Text::new(alloc, name)?;
    let value = Text::new(alloc, value)?;
    Ok(Var { name, value })
}

/// Values that are handed in, each with its name.
pub fn vars_of(alloc: Global, pairs: &[(&str, &str)]) -> Result<Vec<Var>, Fail> {
    let mut vars = Vec::new(alloc);
    for (name, value) in pairs {
        vars.push(var(alloc, *name, *value)?)?;
    }
    Ok(vars)
}

/// What the text `Kconfig` among these is read as.
fn read(
    alloc: Global,
    texts: &[(&str, &str)],
    vars: &[Var],
    fails: &[u64],
) -> Result<Result<Entries, KconfBad>, Fail> {
    let mut files = files_of(alloc, texts, fails)?;
    let root = Name::new(alloc, "Kconfig")?.ok_or("a name")?;
    let mut meter = Meter::new();
    Ok(read_tree(alloc, &mut files, &root, vars, &mut meter))
}

/// What reading the text `Kconfig` among these gives, where the reads with these numbers, counted from 1, fail: the
/// entries with `; ` between, or the refusal.
pub fn read_among(
    alloc: Global,
    texts: &[(&str, &str)],
    vars: &[Var],
    fails: &[u64],
) -> Result<String, Fail> {
    match read(alloc, texts, vars, fails)? {
        Ok(entries) => Ok(entries_text(alloc, &entries, "; ")?),
        Err(bad) => Ok(refusal_text(alloc, &bad)?),
    }
}

/// What reading a text alone gives where these values are handed in.
pub fn read_with(alloc: Global, text: &str, vars: &[Var]) -> Result<String, Fail> {
    read_among(alloc, &[("Kconfig", text)], vars, &[])
}

/// What reading a text alone gives.
pub fn read_alone(alloc: Global, text: &str) -> Result<String, Fail> {
    read_with(alloc, text, &[])
}

/// The entries of a text alone, a line for each.
pub fn read_lines(alloc: Global, text: &str) -> Result<String, Fail> {
    let entries = read(alloc, &[("Kconfig", text)], &[], &[])??;
    let mut lines = entries_text(alloc, &entries, "\n")?;
    if !lines.is_empty() {
        lines.push('\n')?;
    }
    Ok(lines)
}
