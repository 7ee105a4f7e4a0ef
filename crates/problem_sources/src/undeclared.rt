//! The undeclared names of a problem: those of the ground, of macros `CONFIG_N`, and of steps On X.

ghost use Rattle.std.specs.Prelude.{◌≡◌, ◌++◌, ◌↔◌, Contains, IfOk, OnOk, map};
ghost use Rattle.std.specs.List.{flat_map};
ghost use Rattle.ut_text.specs.Bytes.{Bytes};
ghost use Rattle.kconf_constr.specs.Scope.{IsRising};
ghost use Rattle.cpp_blocks.specs.Mentions.{names_of};
ghost use Rattle.ut_case.specs.Names as macros_of;
ghost use Rattle.ut_case.specs.Numbering as spec;
ghost use Rattle.ut_case.specs.Problem.{directives_in};
ghost use Rattle.problem_sources.specs.Grounds.{basis_of, posed_source};
ghost use Rattle.problem_sources.specs.Undeclared.{AddsNames};

use crate::ground::Ground;
use crate::macro_names::{config_name, module_of};
use crate::source::{Source, paths_of};
use cpp_blocks::Blocks;
use cpp_directives::CppBad;
use kbuild_files::FileConds;
use kbuild_paths::{Path, Step};
use std::alloc::{AllocError, Global};
use std::collections::BTreeSet;
use ut_logic::Text;

/// Adds the names of a list to a set.
fn add_names(set: &mut BTreeSet<Text>, names: Vec<Text>) -> Result<(), AllocError>
    ensures { OnOk result (AddsNames set.old set.new names.items) }
{
    for name in names {
        set.insert(name)?;
    }
    Ok(())
}

/// The names of a set, rising by their bytes.
fn rising(alloc: Global, set: BTreeSet<Text>) -> Result<Vec<Text>, AllocError>
    ensures names { IfOk result (λ v. v.items ≡ set.keys) }
    ensures rising { IfOk result (λ v. IsRising v.items) }
{
    let mut names = Vec::with_capacity(alloc, set.len())?;
    for name in set {
        names.push(name)?;
    }
    Ok(names)
}

/// The undeclared names that the ground has by itself.
fn ground_names(alloc: Global, ground: &Ground) -> Result<Vec<Text>, AllocError>
    ensures { IfOk result (λ v. (name : Bytes) → Contains v.items name ↔ Contains (spec.basis_undeclared (basis_of ground.now)) name) }
{
    match ground {
        Ground::Tree(tree) => tree.undeclared(alloc),
        Ground::Rules(_) => Ok(Vec::new(alloc)),
    }
}

/// Whether the macro `CONFIG_N` is declared.
fn is_declared(ground: &Ground, macro_name: &Text, name: &str) -> bool
    ensures { result ≡ macros_of.is_declared (basis_of ground.now) macro_name.now name.now }
{
    match ground {
        Ground::Tree(tree) => tree.symbol(name).is_some() || module_of(tree, name).is_some(),
        Ground::Rules(named) => named.number(macro_name).is_some(),
    }
}

/// Adds the N of a macro `CONFIG_N` that isn't declared.
fn push_macro(
    alloc: Global,
    ground: &Ground,
    macro_name: &Text,
    names: &mut Vec<Text>,
) -> Result<(), AllocError>
    ensures { OnOk result (names.new.items ≡ names.old.items ++ spec.macro_undeclared (basis_of ground.now) macro_name.now (macros_of.config_name macro_name.now)) }
{
    match config_name(macro_name.text()) {
        None => Ok(()),
        Some(name) => {
            if !is_declared(ground, macro_name, name) {
                names.push(Text::new(alloc, name)?)?;
            }
            Ok(())
        }
    }
}

/// Adds those of macros.
fn push_macros(
    alloc: Global,
    ground: &Ground,
    macros: &[Text],
    names: &mut Vec<Text>,
) -> Result<(), AllocError>
    ensures { OnOk result (names.new.items ≡ names.old.items ++ flat_map (λ m. spec.macro_undeclared (basis_of ground.now) m (macros_of.config_name m)) macros.now) }
{
    for name in macros {
        push_macro(alloc, ground, name, names)?;
    }
    Ok(())
}

/// Adds the X of a step On X that isn't declared; over a model text such a step is never on.
fn push_step(
    alloc: Global,
    ground: &Ground,
    step: &Step,
    names: &mut Vec<Text>,
) -> Result<(), AllocError>
    ensures { OnOk result (names.new.items ≡ names.old.items ++ spec.step_undeclared (basis_of ground.now) step.now) }
{
    match (ground, step) {
        (Ground::Tree(tree), Step::On(name)) => {
            if tree.symbol(name.text()).is_none() {
                names.push(name.copy(alloc)?)?;
            }
            Ok(())
        }
        (Ground::Tree(_), Step::Free(_)) => Ok(()),
        (Ground::Rules(_), Step::On(_)) => Ok(()),
        (Ground::Rules(_), Step::Free(_)) => Ok(()),
    }
}

/// Adds those of the steps of a path.
fn push_path(
    alloc: Global,
    ground: &Ground,
    steps: &[Step],
    names: &mut Vec<Text>,
) -> Result<(), AllocError>
    ensures { OnOk result (names.new.items ≡ names.old.items ++ flat_map (spec.step_undeclared (basis_of ground.now)) steps.now) }
{
    for step in steps {
        push_step(alloc, ground, step, names)?;
    }
    Ok(())
}

/// Adds those of the paths of a source.
fn push_paths(
    alloc: Global,
    ground: &Ground,
    paths: &[Path],
    names: &mut Vec<Text>,
) -> Result<(), AllocError>
    ensures { OnOk result (names.new.items ≡ names.old.items ++ flat_map (flat_map (spec.step_undeclared (basis_of ground.now))) paths.now) }
{
    for path in paths {
        push_path(alloc, ground, path.as_slice(), names)?;
    }
    Ok(())
}

/// Adds those of what was read; a refused text has no macros.
fn push_read(
    alloc: Global,
    ground: &Ground,
    blocks: &Result<Blocks, CppBad>,
    names: &mut Vec<Text>,
) -> Result<(), AllocError>
    ensures { OnOk result (names.new.items ≡ names.old.items ++ flat_map (λ m. spec.macro_undeclared (basis_of ground.now) m (macros_of.config_name m)) (names_of (directives_in blocks.now))) }
{
    match blocks {
        Ok(blocks) => push_macros(alloc, ground, blocks.macro_names(), names),
        Err(_) => Ok(()),
    }
}

/// Those that a source names.
fn source_names(
    alloc: Global,
    ground: &Ground,
    conds: &FileConds,
    source: &Source,
) -> Result<Vec<Text>, AllocError>
    ensures { IfOk result (λ v. v.items ≡ spec.source_undeclared (basis_of ground.now) (posed_source conds.now source.now)) }
{
    let mut names = Vec::new(alloc);
    push_read(alloc, ground, &source.blocks, &mut names)?;
    push_paths(alloc, ground, paths_of(conds, source), &mut names)?;
    Ok(names)
}

/// Adds those of all sources, one source after another, so that a name is held once.
fn add_sources(
    alloc: Global,
    ground: &Ground,
    conds: &FileConds,
    sources: &[Source],
    set: &mut BTreeSet<Text>,
) -> Result<(), AllocError>
    ensures { OnOk result (AddsNames set.old set.new (flat_map (spec.source_undeclared (basis_of ground.now)) (map (posed_source conds.now) sources.now))) }
{
    for source in sources {
        let names = source_names(alloc, ground, conds, source)?;
        add_names(set, names)?;
    }
    Ok(())
}

/// The undeclared names of a problem, rising by their bytes, each once.
pub fn undeclared_of(
    alloc: Global,
    ground: &Ground,
    conds: &FileConds,
    sources: &[Source],
) -> Result<Vec<Text>, AllocError>
    ensures rising { IfOk result (λ v. IsRising v.items) }
    ensures exact { IfOk result (λ v. (name : Bytes) → Contains v.items name ↔ Contains (spec.basis_undeclared (basis_of ground.now) ++ flat_map (spec.source_undeclared (basis_of ground.now)) (map (posed_source conds.now) sources.now)) name) }
{
    let mut set = BTreeSet::new(alloc);
    let first = ground_names(alloc, ground)?;
    add_names(&mut set, first)?;
    add_sources(alloc, ground, conds, sources, &mut set)?;
    rising(alloc, set)
}
