ghost use Rattle.std.specs.Prelude.{◌≡◌, ◌<◌, ◌∷◌, ◌++◌, [], IfOk, OnOk, MatchOption, None, Some, length, map, slice_get};
ghost use Rattle.ut_base.specs.Plans.{plan};
ghost use Rattle.ut_base.specs.Reading.{Reads, stand};
ghost use Rattle.kbuild_folders.specs.Errors.{kbuild_errors};
ghost use Rattle.kbuild_folders.specs.Folders as spec;

use crate::bad::KbuildBad;
use crate::names::Place;
use crate::texts::{TextRead, read_folder, read_root};
use indexmap::IndexSet;
use kbuild_text::{Goal, Listing};
use sqlite_items::Items;
use std::alloc::{AllocError, Global};
use std::marker::Model;
use ut_base::{Files, Meter, Name};

/// The folders that texts name, relative to the base and in order of first mention, which contracts see as the list of
/// their names.
#[derive(Drop)]
pub struct Folders {
    set: IndexSet<Vec<u8>>,
}

impl Model for Folders {
    ghost use Rattle.std.specs.Prelude.{List, map};
    ghost use Rattle.ut_text.specs.Bytes.{Bytes};

    ghost Value = { List Bytes };

    ghost view = { λ f. map (λ name. name.items) f.set.keys };
}

impl Folders {
    /// The folder of the root text.
    pub fn new(alloc: Global) -> Result<Folders, AllocError>
        ensures { IfOk result (λ folders. folders ≡ [] ∷ []) }
    {
        let mut set = IndexSet::new(alloc);
        set.insert(Vec::new(alloc))?;
        Ok(Folders { set })
    }

    /// The folder with this number.
    fn get(&self, number: usize) -> Option<&[u8]>
        ensures { MatchOption result (slice_get self.now number ≡ None) (λ name. slice_get self.now number ≡ Some name.now) }
    {
        match self.set.get_index(number) {
            Some(name) => Some(name.as_slice()),
            None => None,
        }
    }

    /// One more folder, where it isn't there.
    fn add(&mut self, name: Vec<u8>) -> Result<(), AllocError>
        ensures { OnOk result (self.new ≡ spec.with_name self.old name.items) }
    {
        self.set.insert(name)?;
        Ok(())
    }

    /// The folders that a listing names.
    fn mention_goals(
        &mut self,
        alloc: Global,
        place: Place<'_>,
        goals: &[Goal],
    ) -> Result<(), AllocError>
        ensures { OnOk result (self.new ≡ spec.with_names self.old (spec.folders_in place.entry.base.now place.entry.folder.now goals.now)) }
    {
        for goal in goals {
            match goal {
                Goal::Object(_) => {}
                Goal::Folder(name) => {
                    if let Some(folder) = place.folder(alloc, name.as_slice())? {
                        self.add(folder)?;
                    }
                }
            }
        }
        Ok(())
    }

    /// The folders that the listings of a text name.
    pub fn mention(
        &mut self,
        alloc: Global,
        place: Place<'_>,
        listings: &[Listing],
    ) -> Result<(), AllocError>
        ensures { OnOk result (self.new ≡ spec.with_names self.old (spec.folders_listed place.entry.base.now place.entry.folder.now listings.now)) }
    {
        for listing in listings {
            self.mention_goals(alloc, place, listing.goals.as_slice())?;
        }
        Ok(())
    }
}

/// The texts that were read, each of the folder with its number.
#[derive(Drop)]
pub struct Texts {
    pub folders: Folders,
    pub reads: Items<TextRead>,
}

impl Texts {
    /// One more text: that of the first folder that isn't read.
    fn push(&mut self, alloc: Global, base: &[u8], text: TextRead) -> Result<(), AllocError>
        ensures reads { OnOk result (self.new.reads ≡ self.old.reads ++ text ∷ []) }
        ensures folders { OnOk result (self.new.folders ≡ spec.with_names self.old.folders (spec.mentioned base.now text)) }
    {
        let place = Place {
            base,
            folder: text.folder.as_slice(),
        };
        self.folders
            .mention(alloc, place, text.listings.as_slice())?;
        self.reads.push(text)
    }
}

/// Reads the root text and the texts of all folders, in order of first mention.
pub fn read_texts<F: Files>(
    alloc: Global,
    files: &mut F,
    root: &Name,
    base: &[u8],
    meter: &mut Meter,
) -> Result<Texts, KbuildBad>
    ensures reads { Reads (plan kbuild_errors (spec.texts_plan root.now base.now)) (stand F.Files files.old) (stand F.Files files.new) meter.old meter.new (spec.reads_of result) }
    ensures folders { IfOk result (λ texts. texts.folders ≡ spec.folders_of base.now texts.reads) }
{
    let text = read_root(alloc, files, root, meter)?;
    let mut texts = Texts {
        folders: Folders::new(alloc)?,
        reads: Items::new(alloc),
    };
    texts.push(alloc, base, text)?;
    while let Some(folder) = texts.folders.get(texts.reads.len()) {
        let place = Place { base, folder };
        let text = read_folder(alloc, files, place, meter)?;
        texts.push(alloc, base, text)?;
    }
    Ok(texts)
}
