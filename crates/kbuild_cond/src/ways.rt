//! The paths to folders: those of each folder whose text names one, followed by the steps under which it does.

ghost use Rattle.std.specs.Prelude.{◌≡◌, ◌++◌, ◌∷◌, [], IfOk, OnOk, length, map};
ghost use Rattle.std.specs.List.{flat_map};
ghost use Rattle.std.specs.Option.{option_map};
ghost use Rattle.kbuild_folders.specs.Folders.{folders_in};
ghost use Rattle.kbuild_folders.specs.Names.{folder_at};
ghost use Rattle.kbuild_cond.specs.Adding.{AddsOr, FoldersOr, IsShorterFirst};
ghost use Rattle.kbuild_cond.specs.Files as spec;

use crate::adding::{Led, add_lead};
use kbuild_files::FileConds;
use kbuild_folders::{KbuildBad, Place, TextRead};
use kbuild_paths::{Path, Step};
use kbuild_text::{Goal, Listing};
use std::alloc::{AllocError, Global};
use std::marker::Model;

/// A word that names a folder: the folder of its text, the word, and the steps under which it does. `len` is the length of the
/// folder's name.
#[derive(Drop)]
struct Naming<'a> {
    from: &'a [u8],
    word: &'a [u8],
    steps: &'a [Step],
    len: usize,
}

impl<'a> Model for Naming<'a> {
    ghost use Rattle.std.specs.Prelude.{◌≡◌, ◌++◌, length};
    ghost use Rattle.kbuild_cond.specs.Files as spec;

    ghost Value = { spec.Naming };

    ghost view = { λ n. record { from = n.from.now; to = n.from.now ++ n.word.now; steps = n.steps.now } };

    ghost invariant = { λ n. n.len ≡ length (n.from.now ++ n.word.now) };
}

impl<'a> Naming<'a> {
    /// The length of the folder's name.
    fn len(&self) -> usize
        ensures { result ≡ length self.now.to }
    {
        self.len
    }

    /// The folder's name.
    fn name(&self, alloc: Global) -> Result<Vec<u8>, AllocError>
        ensures { IfOk result (λ name. name.items ≡ self.now.to) }
    {
        let mut name = Vec::with_capacity(alloc, self.len)?;
        name.extend_from_slice(self.from)?;
        name.extend_from_slice(self.word)?;
        Ok(name)
    }

    /// The folder of the text.
    fn from(&self) -> &[u8]
        ensures { result.now ≡ self.now.from }
    {
        self.from
    }

    /// The steps under which the word names the folder.
    fn steps(&self) -> &[Step]
        ensures { result.now ≡ self.now.steps }
    {
        self.steps
    }
}

/// Copies of paths.
fn copies(alloc: Global, paths: &[Path]) -> Result<Vec<Path>, AllocError>
    ensures { IfOk result (λ copies. copies.items ≡ paths.now) }
{
    let mut copies = Vec::new(alloc);
    for path in paths {
        copies.push(path.followed_by(alloc, &[])?)?;
    }
    Ok(copies)
}

/// The paths of a folder: none where it isn't there.
pub fn paths_in(alloc: Global, folders: &FileConds, folder: &[u8]) -> Result<Vec<Path>, AllocError>
    ensures { IfOk result (λ paths. paths.items ≡ spec.paths_at folders.now.files folder.now) }
{
    match folders.named(folder) {
        Some(cond) => copies(alloc, cond.paths.as_slice()),
        None => Ok(Vec::new(alloc)),
    }
}

/// The naming that a word is, where that is a folder.
fn naming_of<'a>(
    alloc: Global,
    place: Place<'a>,
    steps: &'a [Step],
    word: &'a [u8],
) -> Result<Option<Naming<'a>>, AllocError>
    ensures { IfOk result (λ naming. naming ≡ option_map (spec.naming_at place.entry.folder.now steps.now) (folder_at place.entry.base.now place.entry.folder.now word.now)) }
{
    match place.folder(alloc, word)? {
        Some(name) => Ok(Some(Naming {
            from: place.folder,
            word,
            steps,
            len: name.len(),
        })),
        None => Ok(None),
    }
}

/// Adds what a goal names, if that is a folder.
fn push_goal<'a>(
    alloc: Global,
    namings: &mut Vec<Naming<'a>>,
    place: Place<'a>,
    steps: &'a [Step],
    goal: &'a Goal,
) -> Result<(), AllocError>
    ensures { OnOk result (namings.new.items ≡ namings.old.items ++ map (spec.naming_at place.entry.folder.now steps.now) (folders_in place.entry.base.now place.entry.folder.now (goal.now ∷ []))) }
{
    match goal {
        Goal::Folder(word) => {
            if let Some(naming) = naming_of(alloc, place, steps, word.as_slice())? {
                namings.push(naming)?;
            }
            Ok(())
        }
        Goal::Object(_) => Ok(()),
    }
}

/// Adds what goals name that are folders.
fn push_goals<'a>(
    alloc: Global,
    namings: &mut Vec<Naming<'a>>,
    place: Place<'a>,
    steps: &'a [Step],
    goals: &'a [Goal],
) -> Result<(), AllocError>
    ensures { OnOk result (namings.new.items ≡ namings.old.items ++ flat_map (λ goal. map (spec.naming_at place.entry.folder.now steps.now) (folders_in place.entry.base.now place.entry.folder.now (goal ∷ []))) goals.now) }
{
    for goal in goals {
        push_goal(alloc, namings, place, steps, goal)?;
    }
    Ok(())
}

/// Adds the words of a listing that name folders.
fn push_listing<'a>(
    alloc: Global,
    namings: &mut Vec<Naming<'a>>,
    place: Place<'a>,
    listing: &'a Listing,
) -> Result<(), AllocError>
    ensures { OnOk result (namings.new.items ≡ namings.old.items ++ spec.namings_by place.entry.base.now place.entry.folder.now listing.now) }
{
    let steps = listing.steps.as_slice();
    push_goals(alloc, namings, place, steps, listing.goals.as_slice())
}

/// Adds the words of listings that name folders.
fn push_listings<'a>(
    alloc: Global,
    namings: &mut Vec<Naming<'a>>,
    place: Place<'a>,
    listings: &'a [Listing],
) -> Result<(), AllocError>
    ensures { OnOk result (namings.new.items ≡ namings.old.items ++ flat_map (spec.namings_by place.entry.base.now place.entry.folder.now) listings.now) }
{
    for listing in listings {
        push_listing(alloc, namings, place, listing)?;
    }
    Ok(())
}

/// Adds the words of a text that name folders.
fn push_text<'a>(
    alloc: Global,
    namings: &mut Vec<Naming<'a>>,
    base: &'a [u8],
    text: &'a TextRead,
) -> Result<(), AllocError>
    ensures { OnOk result (namings.new.items ≡ namings.old.items ++ spec.namings_of base.now text.now) }
{
    let place = Place {
        base,
        folder: text.folder.as_slice(),
    };
    push_listings(alloc, namings, place, text.listings.as_slice())
}

/// The words of texts that name folders, in order of reading.
fn all_namings<'a>(
    alloc: Global,
    base: &'a [u8],
    texts: &'a [TextRead],
) -> Result<Vec<Naming<'a>>, AllocError>
    ensures { IfOk result (λ namings. namings.items ≡ spec.namings base.now texts.now) }
{
    let mut namings = Vec::new(alloc);
    for text in texts {
        push_text(alloc, &mut namings, base, text)?;
    }
    Ok(namings)
}

/// The same, those of shorter folders first.
fn sorted_namings<'a>(
    alloc: Global,
    base: &'a [u8],
    texts: &'a [TextRead],
) -> Result<Vec<Naming<'a>>, AllocError>
    ensures { IfOk result (λ namings. IsShorterFirst (spec.namings base.now texts.now) namings.items) }
{
    let mut namings = all_namings(alloc, base, texts)?;
    namings.sort_by_key(|naming| naming.len())?;
    Ok(namings)
}

/// Adds the ways by a naming, by the paths that the folder of its text has.
fn add_naming(alloc: Global, folders: &mut FileConds, naming: &Naming<'_>) -> Result<(), KbuildBad>
    ensures { AddsOr (spec.naming_ways (spec.paths_at folders.old.files naming.now.from) naming.now) folders.old result folders.new }
{
    let fronts = paths_in(alloc, folders, naming.from())?;
    let name = naming.name(alloc)?;
    let lead = Path::new(alloc);
    let led = Led {
        fronts: fronts.as_slice(),
        leads: fronts.as_slice(),
        steps: naming.steps(),
    };
    add_lead(alloc, folders, name.as_slice(), led, &lead)
}

/// The paths to all folders.
///
/// A folder's name is longer than that of one whose text names it, so shorter ones come first.
pub fn folder_paths(alloc: Global, base: &[u8], texts: &[TextRead]) -> Result<FileConds, KbuildBad>
    ensures { FoldersOr base.now texts.now result }
{
    let namings = sorted_namings(alloc, base, texts)?;
    let mut folders = FileConds::nothing(alloc)?;
    folders.add(alloc, b"", Path::new(alloc))?;
    for naming in namings.as_slice() {
        add_naming(alloc, &mut folders, naming)?;
    }
    Ok(folders)
}
