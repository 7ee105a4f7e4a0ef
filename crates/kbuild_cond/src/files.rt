//! The paths to objects and parts.

ghost use Rattle.std.specs.Prelude.{◌≡◌, ◌++◌, ◌∷◌, [], IfOk, OnOk};
ghost use Rattle.std.specs.List.{flat_map};
ghost use Rattle.kbuild_cond.specs.Adding.{AddsOr, FilesOr};
ghost use Rattle.kbuild_cond.specs.Files as spec;

use crate::adding::{Led, add_leads};
use crate::ways::paths_in;
use kbuild_files::FileConds;
use kbuild_folders::{KbuildBad, Place, TextRead};
use kbuild_paths::{Path, Paths, Step};
use kbuild_text::{Goal, Listing, Role};
use std::alloc::{AllocError, Global};

/// A text that is read: its place, the paths to its folder, the objects that it has as goals, and one path without a step.
#[derive(Clone, Copy)]
struct Source<'a> {
    place: Place<'a>,
    fronts: &'a [Path],
    own: &'a FileConds,
    always: &'a [Path],
}

/// Adds the ways to what a goal names, if that is an object.
fn add_goal(
    alloc: Global,
    files: &mut FileConds,
    place: Place<'_>,
    led: Led<'_>,
    goal: &Goal,
) -> Result<(), KbuildBad>
    ensures { AddsOr (spec.object_ways place.entry.base.now place.entry.folder.now led.entry.fronts.now led.entry.leads.now led.entry.steps.now goal.now) files.old result files.new }
{
    match goal {
        Goal::Object(name) => match place.object(alloc, name.as_slice())? {
            Some(object) => add_leads(alloc, files, object.as_slice(), led),
            None => Ok(()),
        },
        Goal::Folder(_) => Ok(()),
    }
}

/// Adds the ways to all objects among goals.
fn add_objects(
    alloc: Global,
    files: &mut FileConds,
    place: Place<'_>,
    led: Led<'_>,
    goals: &[Goal],
) -> Result<(), KbuildBad>
    ensures { AddsOr (flat_map (spec.object_ways place.entry.base.now place.entry.folder.now led.entry.fronts.now led.entry.leads.now led.entry.steps.now) goals.now) files.old result files.new }
{
    for goal in goals {
        add_goal(alloc, files, place, led, goal)?;
    }
    Ok(())
}

/// Adds one way from its folder to what a goal names, if that is an object.
fn add_own_goal(
    alloc: Global,
    own: &mut FileConds,
    place: Place<'_>,
    steps: &[Step],
    goal: &Goal,
) -> Result<(), AllocError>
    ensures { OnOk result (own.new.files ≡ spec.with_ways own.old.files (spec.object_ways place.entry.base.now place.entry.folder.now ([] ∷ []) ([] ∷ []) steps.now goal.now)) }
{
    match goal {
        Goal::Object(name) => match place.object(alloc, name.as_slice())? {
            Some(object) => {
                let mut path = Path::new(alloc);
                path.extend(alloc, steps)?;
                own.add(alloc, object.as_slice(), path)?;
                Ok(())
            }
            None => Ok(()),
        },
        Goal::Folder(_) => Ok(()),
    }
}

/// Adds the objects among goals, each with these steps.
fn add_own(
    alloc: Global,
    own: &mut FileConds,
    place: Place<'_>,
    steps: &[Step],
    goals: &[Goal],
) -> Result<(), AllocError>
    ensures { OnOk result (own.new.files ≡ spec.with_ways own.old.files (flat_map (spec.object_ways place.entry.base.now place.entry.folder.now ([] ∷ []) ([] ∷ []) steps.now) goals.now)) }
{
    for goal in goals {
        add_own_goal(alloc, own, place, steps, goal)?;
    }
    Ok(())
}

/// Adds the objects of a listing of goals, and none of a listing of parts.
fn add_goals(
    alloc: Global,
    own: &mut FileConds,
    place: Place<'_>,
    listing: &Listing,
) -> Result<(), AllocError>
    ensures { OnOk result (own.new.files ≡ spec.with_ways own.old.files (spec.goal_ways place.entry.base.now place.entry.folder.now listing.now.role listing.now)) }
{
    match &listing.role {
        Role::Goals { .. } => {
            let steps = listing.steps.as_slice();
            add_own(alloc, own, place, steps, listing.goals.as_slice())
        }
        Role::Parts { .. } => Ok(()),
    }
}

/// The objects that a text has as goals, each with the paths from its folder.
fn own_objects(
    alloc: Global,
    place: Place<'_>,
    listings: &[Listing],
) -> Result<FileConds, AllocError>
    ensures { IfOk result (λ own. own.files ≡ spec.own_of place.entry.base.now place.entry.folder.now listings.now) }
{
    let mut own = FileConds::nothing(alloc)?;
    for listing in listings {
        add_goals(alloc, &mut own, place, listing)?;
    }
    Ok(own)
}

/// Adds the ways to the parts of the object with this name, if the text has it as a goal.
fn add_parts(
    alloc: Global,
    files: &mut FileConds,
    source: Source<'_>,
    of: &[u8],
    listing: &Listing,
) -> Result<(), KbuildBad>
    ensures { AddsOr (spec.part_ways source.entry.place.base.now source.entry.place.folder.now source.entry.own.now.files source.entry.fronts.now of.now listing.now) files.old result files.new }
{
    let Some(whole) = source.place.object(alloc, of)? else {
        return Ok(());
    };
    match source.own.named(whole.as_slice()) {
        Some(cond) => {
            let led = Led {
                fronts: source.fronts,
                leads: cond.paths.as_slice(),
                steps: listing.steps.as_slice(),
            };
            add_objects(alloc, files, source.place, led, listing.goals.as_slice())
        }
        None => Ok(()),
    }
}

/// Adds the ways to the objects or parts of a listing.
fn add_listing(
    alloc: Global,
    files: &mut FileConds,
    source: Source<'_>,
    listing: &Listing,
) -> Result<(), KbuildBad>
    requires { source.always.now ≡ [] ∷ [] }
    ensures { AddsOr (spec.ways_in source.entry.place.base.now source.entry.place.folder.now source.entry.own.now.files source.entry.fronts.now listing.now.role listing.now) files.old result files.new }
{
    match &listing.role {
        Role::Goals { .. } => {
            let led = Led {
                fronts: source.fronts,
                leads: source.always,
                steps: listing.steps.as_slice(),
            };
            add_objects(alloc, files, source.place, led, listing.goals.as_slice())
        }
        Role::Parts { of } => add_parts(alloc, files, source, of.as_slice(), listing),
    }
}

/// Adds the ways to the objects and parts of a text.
fn add_source(
    alloc: Global,
    files: &mut FileConds,
    source: Source<'_>,
    listings: &[Listing],
) -> Result<(), KbuildBad>
    requires { source.always.now ≡ [] ∷ [] }
    ensures { AddsOr (flat_map (λ listing. spec.ways_in source.entry.place.base.now source.entry.place.folder.now source.entry.own.now.files source.entry.fronts.now listing.role listing) listings.now) files.old result files.new }
{
    for listing in listings {
        add_listing(alloc, files, source, listing)?;
    }
    Ok(())
}

/// Adds the ways to the objects and parts of a text, where the folders have these paths.
fn add_text(
    alloc: Global,
    files: &mut FileConds,
    base: &[u8],
    folders: &FileConds,
    text: &TextRead,
) -> Result<(), KbuildBad>
    ensures { AddsOr (spec.text_ways base.now (spec.paths_at folders.now.files text.now.folder) text.now) files.old result files.new }
{
    let place = Place {
        base,
        folder: text.folder.as_slice(),
    };
    let fronts = paths_in(alloc, folders, text.folder.as_slice())?;
    let always = Paths::always(alloc)?;
    let own = own_objects(alloc, place, text.listings.as_slice())?;
    let source = Source {
        place,
        fronts: fronts.as_slice(),
        own: &own,
        always: always.as_slice(),
    };
    add_source(alloc, files, source, text.listings.as_slice())
}

/// All files that texts name, where the folders have these paths.
pub fn files_of(
    alloc: Global,
    base: &[u8],
    texts: &[TextRead],
    folders: &FileConds,
) -> Result<FileConds, KbuildBad>
    ensures { FilesOr base.now (spec.files_by base.now folders.now.files texts.now) result }
{
    let mut files = FileConds::in_folder(alloc, Vec::from_slice(alloc, base)?)?;
    for text in texts {
        add_text(alloc, &mut files, base, folders, text)?;
    }
    Ok(files)
}
