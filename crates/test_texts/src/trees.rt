use kconf_entries::{ChoiceEntry, ConfigEntry, Entries, Kind};
use kconf_parse::read_tree;
use kconf_tree::{Tree, TreeBad, have_choices};
use std::alloc::Global;
use std::test::Fail;
use test_rows::files_of;
use ut_base::{Meter, Name};
use ut_logic::Sequence;

/// The entries of a Kconfig text, in which `; ` stands for a line's end too, so that a text can stand in one line of a
/// table. An error is a text that is refused, or want of memory.
pub fn entries_of(alloc: Global, text: &str) -> Result<Entries, Fail> {
    let lines = text.replace(alloc, "; ", "\n")?;
    let mut files = files_of(alloc, &[("Kconfig", lines.as_str())], &[])?;
    let root = Name::new(alloc, "Kconfig")?.ok_or("a name")?;
    let mut meter = Meter::new();
    Ok(read_tree(alloc, &mut files, &root, &[], &mut meter)?)
}

/// The tree of entries, or why they make none; `Oom` also where one names a choice that is not among them.
pub fn build(alloc: Global, entries: Entries) -> Result<Tree, TreeBad> {
    if !have_choices(&entries) {
        return Err(TreeBad::Oom);
    }
    Tree::build(alloc, entries)
}

/// The tree of a Kconfig text. An error is a text or a tree that is refused, or want of memory.
pub fn tree_of(alloc: Global, text: &str) -> Result<Tree, Fail> {
    Ok(build(alloc, entries_of(alloc, text)?)?)
}

/// The configs with their selects as implies, and their implies as selects.
fn weakened(alloc: Global, configs: Sequence<ConfigEntry>) -> Result<Sequence<ConfigEntry>, Fail> {
    let mut list = Vec::new(alloc);
    for config in configs.into_vec() {
        let ConfigEntry {
            name,
            kind,
            depends,
            prompts,
            defaults,
            selects,
            implies,
            modules,
            choice,
        } = config;
        list.push(ConfigEntry {
            name,
            kind,
            depends,
            prompts,
            defaults,
            selects: implies,
            implies: selects,
            modules,
            choice,
        })?;
    }
    Ok(Sequence::from_vec(list))
}

/// The tree of a Kconfig text in which each `select` stands for `imply`. An error is a text or a tree that is refused, or
/// want of memory.
pub fn imply_tree_of(alloc: Global, text: &str) -> Result<Tree, Fail> {
    let Entries { configs, choices } = entries_of(alloc, text)?;
    let configs = weakened(alloc, configs)?;
    Ok(build(alloc, Entries { configs, choices })?)
}

/// The choices as tristate ones.
fn tristate(alloc: Global, choices: Sequence<ChoiceEntry>) -> Result<Sequence<ChoiceEntry>, Fail> {
    let mut list = Vec::new(alloc);
    for choice in choices.into_vec() {
        let ChoiceEntry {
            kind: _,
            optional,
            prompts,
            defaults,
        } = choice;
        list.push(ChoiceEntry {
            kind: Kind::Tristate,
            optional,
            prompts,
            defaults,
        })?;
    }
    Ok(Sequence::from_vec(list))
}

/// The tree of a Kconfig text in which each choice stands for a tristate one. An error is a text or a tree that is refused,
/// or want of memory.
pub fn tristate_tree_of(alloc: Global, text: &str) -> Result<Tree, Fail> {
    let Entries { configs, choices } = entries_of(alloc, text)?;
    let choices = tristate(alloc, choices)?;
    Ok(build(alloc, Entries { configs, choices })?)
}
