//! Ways that are added to files, within the limit on paths.

ghost use Rattle.std.specs.Prelude.{◌≡◌, ◌++◌, ◌∷◌, [], IfOk, nat_lt};
ghost use Rattle.kbuild_cond.specs.Adding.{AddsOr};
ghost use Rattle.kbuild_cond.specs.Files as spec;
ghost use Rattle.kbuild_cond.specs.Reading.{most_paths, over_limit};

use kbuild_files::FileConds;
use kbuild_folders::KbuildBad;
use kbuild_paths::{Path, Step};
use std::alloc::{AllocError, Global};
use ut_base::Limit;

/// The most paths of a folder or an object.
const MOST_PATHS: usize = 1024;

/// How the objects of a listing are led to: by each path to the folder of its text, then each lead, then its own steps.
#[derive(Clone, Copy)]
pub struct Led<'a> {
    pub fronts: &'a [Path],
    pub leads: &'a [Path],
    pub steps: &'a [Step],
}

/// The refusal of one path too many.
fn too_many() -> KbuildBad
    ensures { result ≡ over_limit }
{
    KbuildBad::TooLarge {
        what: Limit::Paths,
        count: MOST_PATHS as u64 + 1,
    }
}

/// Whether these are too many paths.
fn are_too_many(count: usize) -> bool
    ensures { result ≡ nat_lt most_paths count }
{
    count > MOST_PATHS
}

/// Adds one way to an object.
fn add_way(alloc: Global, files: &mut FileConds, object: &[u8], path: Path) -> Result<(), KbuildBad>
    ensures { AddsOr (record { to = object.now; steps = path } ∷ []) files.old result files.new }
{
    let count = files.add(alloc, object, path)?;
    if are_too_many(count) {
        return Err(too_many());
    }
    Ok(())
}

/// A path, then a lead, then more steps.
fn led_path(alloc: Global, front: &Path, lead: &Path, steps: &[Step]) -> Result<Path, AllocError>
    ensures { IfOk result (λ path. path ≡ front.now ++ lead.now ++ steps.now) }
{
    let mut path = front.followed_by(alloc, lead.as_slice())?;
    path.extend(alloc, steps)?;
    Ok(path)
}

/// Adds the ways to an object by one lead.
pub fn add_lead(
    alloc: Global,
    files: &mut FileConds,
    object: &[u8],
    led: Led<'_>,
    lead: &Path,
) -> Result<(), KbuildBad>
    ensures { AddsOr (spec.ways_after led.entry.fronts.now lead.now led.entry.steps.now object.now) files.old result files.new }
{
    for front in led.fronts {
        let path = led_path(alloc, front, lead, led.steps)?;
        add_way(alloc, files, object, path)?;
    }
    Ok(())
}

/// Adds the ways to an object by each of the leads.
pub fn add_leads(
    alloc: Global,
    files: &mut FileConds,
    object: &[u8],
    led: Led<'_>,
) -> Result<(), KbuildBad>
    ensures { AddsOr (spec.ways_by led.entry.fronts.now led.entry.leads.now led.entry.steps.now object.now) files.old result files.new }
{
    for lead in led.leads {
        add_lead(alloc, files, object, led, lead)?;
    }
    Ok(())
}
