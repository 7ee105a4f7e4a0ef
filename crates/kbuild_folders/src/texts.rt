ghost use Rattle.std.specs.Prelude.{◌≡◌, ◌⊎◌, Err};
ghost use Rattle.ut_base.specs.Plans.{plan};
ghost use Rattle.ut_base.specs.Reading.{Reads, stand};
ghost use Rattle.kbuild_folders.specs.Errors.{kbuild_errors};
ghost use Rattle.kbuild_folders.specs.Texts as spec;

use crate::bad::KbuildBad;
use crate::names::Place;
use kbuild_text::{Listing, TextBad, listings_of};
use sqlite_items::Items;
use std::alloc::Global;
use ut_base::{Content, Files, Meter, Name, ask, want};

/// A text that was read: its folder, relative to that of the root text, and what it lists.
#[derive(Debug, Drop)]
pub struct TextRead {
    pub folder: Items<u8>,
    pub listings: Items<Listing>,
}

/// What the text of a file in this folder lists.
fn read_text(
    alloc: Global,
    folder: &[u8],
    file: &Name,
    text: &Content,
) -> Result<TextRead, KbuildBad>
    ensures { (result ≡ spec.text_read folder.now file.now text.now) ⊎ (result ≡ Err KbuildBad.Oom) }
{
    match listings_of(alloc, text.bytes()) {
        Ok(listings) => Ok(TextRead {
            folder: Items::from_slice(alloc, folder)?,
            listings,
        }),
        Err(TextBad::Line(line)) => match file.copy(alloc) {
            Ok(file) => Err(KbuildBad::Syntax { file, line }),
            Err(_) => Err(KbuildBad::Oom),
        },
        Err(TextBad::Oom) => Err(KbuildBad::Oom),
    }
}

/// A folder whose texts have no names.
fn unread(alloc: Global, folder: &[u8]) -> Result<TextRead, KbuildBad>
    ensures { (result ≡ spec.unread folder.now) ⊎ (result ≡ Err KbuildBad.Oom) }
{
    Ok(TextRead {
        folder: Items::from_slice(alloc, folder)?,
        listings: Items::new(alloc),
    })
}

/// Reads a text that has to exist.
fn read_named<F: Files>(
    alloc: Global,
    files: &mut F,
    folder: &[u8],
    file: &Name,
    meter: &mut Meter,
) -> Result<TextRead, KbuildBad>
    ensures { Reads (plan kbuild_errors (spec.named_plan folder.now file.now)) (stand F.Files files.old) (stand F.Files files.new) meter.old meter.new result }
{
    let text = want::<F, KbuildBad>(alloc, files, file, meter)?;
    read_text(alloc, folder, file, &text)
}

/// Reads the root text.
pub fn read_root<F: Files>(
    alloc: Global,
    files: &mut F,
    root: &Name,
    meter: &mut Meter,
) -> Result<TextRead, KbuildBad>
    ensures { Reads (plan kbuild_errors (spec.root_plan root.now)) (stand F.Files files.old) (stand F.Files files.new) meter.old meter.new result }
{
    read_named(alloc, files, b"", root, meter)
}

/// Reads the `Makefile` of a folder.
fn read_makefile<F: Files>(
    alloc: Global,
    files: &mut F,
    place: Place<'_>,
    meter: &mut Meter,
) -> Result<TextRead, KbuildBad>
    ensures { Reads (plan kbuild_errors (spec.makefile_plan place.entry.base.now place.entry.folder.now)) (stand F.Files files.old) (stand F.Files files.new) meter.old meter.new result }
{
    match place.file(alloc, b"Makefile")? {
        Some(makefile) => read_named(alloc, files, place.folder, &makefile, meter),
        None => unread(alloc, place.folder),
    }
}

/// Reads the `Kbuild` of a folder, which has this name, or where there is none its `Makefile`.
fn read_kbuild_or<F: Files>(
    alloc: Global,
    files: &mut F,
    place: Place<'_>,
    kbuild: &Name,
    meter: &mut Meter,
) -> Result<TextRead, KbuildBad>
    ensures { Reads (plan kbuild_errors (spec.kbuild_or_plan place.entry.base.now place.entry.folder.now kbuild.now)) (stand F.Files files.old) (stand F.Files files.new) meter.old meter.new result }
{
    match ask::<F, KbuildBad>(alloc, files, kbuild, meter)? {
        Some(text) => read_text(alloc, place.folder, kbuild, &text),
        None => read_makefile(alloc, files, place, meter),
    }
}

/// Reads the text of a folder: its `Kbuild`, or where there is none its `Makefile`.
pub fn read_folder<F: Files>(
    alloc: Global,
    files: &mut F,
    place: Place<'_>,
    meter: &mut Meter,
) -> Result<TextRead, KbuildBad>
    ensures { Reads (plan kbuild_errors (spec.folder_plan place.entry.base.now place.entry.folder.now)) (stand F.Files files.old) (stand F.Files files.new) meter.old meter.new result }
{
    match place.file(alloc, b"Kbuild")? {
        Some(kbuild) => read_kbuild_or(alloc, files, place, &kbuild, meter),
        None => unread(alloc, place.folder),
    }
}
