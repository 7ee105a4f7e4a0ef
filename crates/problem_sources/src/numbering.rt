//! The outer conditions of Kbuild texts: those of the steps of all sources, each at its first place.

ghost use Rattle.std.specs.Prelude.{◌≡◌, ◌++◌, [], IfOk, OnOk, map};
ghost use Rattle.std.specs.List.{flat_map};
ghost use Rattle.ut_text.specs.Text.{text_eq};
ghost use Rattle.cpp_blocks.specs.Mentions.{firsts};
ghost use Rattle.ut_case.specs.Numbering.{basis_outers, source_outers, step_outers};
ghost use Rattle.problem_sources.specs.Grounds.{basis_of, posed_source};
ghost use Rattle.problem_sources.specs.Outers.{with_outer};

use crate::ground::Ground;
use crate::outer_numbers::{first_number, kbuild_text};
use crate::source::{Source, paths_of};
use indexmap::IndexSet;
use kbuild_files::FileConds;
use kbuild_paths::{Path, Step};
use std::alloc::{AllocError, Global};
use ut_logic::Text;

/// Adds an outer condition, unless the ground has it.
fn add_outer(ground: &Ground, text: Text, more: &mut IndexSet<Text>) -> Result<(), AllocError>
    ensures { OnOk result (more.new.keys ≡ with_outer (basis_outers (basis_of ground.now)) more.old.keys text) }
{
    match first_number(ground, &text) {
        Some(_) => Ok(()),
        None => {
            more.insert(text)?;
            Ok(())
        }
    }
}

/// Adds that of a step, if it has one.
fn add_step(
    alloc: Global,
    ground: &Ground,
    step: &Step,
    more: &mut IndexSet<Text>,
) -> Result<(), AllocError>
    ensures { OnOk result (basis_outers (basis_of ground.now) ++ more.new.keys ≡ firsts text_eq (basis_outers (basis_of ground.now) ++ more.old.keys) (step_outers step.now)) }
{
    match step {
        Step::On(_) => Ok(()),
        Step::Free(text) => {
            let text = kbuild_text(alloc, text)?;
            add_outer(ground, text, more)
        }
    }
}

/// Adds those of the steps of a path.
fn add_path(
    alloc: Global,
    ground: &Ground,
    steps: &[Step],
    more: &mut IndexSet<Text>,
) -> Result<(), AllocError>
    ensures { OnOk result (basis_outers (basis_of ground.now) ++ more.new.keys ≡ firsts text_eq (basis_outers (basis_of ground.now) ++ more.old.keys) (flat_map step_outers steps.now)) }
{
    for step in steps {
        add_step(alloc, ground, step, more)?;
    }
    Ok(())
}

/// Adds those of the paths of a source.
fn add_paths(
    alloc: Global,
    ground: &Ground,
    paths: &[Path],
    more: &mut IndexSet<Text>,
) -> Result<(), AllocError>
    ensures { OnOk result (basis_outers (basis_of ground.now) ++ more.new.keys ≡ firsts text_eq (basis_outers (basis_of ground.now) ++ more.old.keys) (flat_map (flat_map step_outers) paths.now)) }
{
    for path in paths {
        add_path(alloc, ground, path.as_slice(), more)?;
    }
    Ok(())
}

/// The outer conditions of the sources' steps that the ground doesn't have, each at its first place; those of refused
/// sources count too.
pub fn outers_of(
    alloc: Global,
    ground: &Ground,
    conds: &FileConds,
    sources: &[Source],
) -> Result<IndexSet<Text>, AllocError>
    ensures { IfOk result (λ more. basis_outers (basis_of ground.now) ++ more.keys ≡ firsts text_eq (basis_outers (basis_of ground.now)) (flat_map source_outers (map (posed_source conds.now) sources.now))) }
{
    let mut more = IndexSet::new(alloc);
    for source in sources {
        add_paths(alloc, ground, paths_of(conds, source), &mut more)?;
    }
    Ok(more)
}
