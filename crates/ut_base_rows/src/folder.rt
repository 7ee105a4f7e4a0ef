ghost use Rattle.std.specs.Prelude.{◌≡◌, ◌⊎◌, [], Err};
ghost use Rattle.ut_base.specs.Plans.{plan};
ghost use Rattle.ut_base.specs.Reading.{Reads, stand};
ghost use Rattle.ut_base_rows.specs.Errors.{folder_errors};
ghost use Rattle.ut_base_rows.specs.Folders.{filled, folder_plan, folders_plan};

use crate::{FolderBad, Texts};
use std::alloc::Global;
use ut_base::{Content, Files, Meter, Name, ask, want};

/// The two files that may hold the text of a folder.
#[derive(Drop)]
pub struct Folder {
    pub first: Name,
    pub second: Name,
}

/// The text, if it has bytes.
fn fill(alloc: Global, name: &Name, text: Content) -> Result<Content, FolderBad>
    ensures { (result ≡ filled name.now text) ⊎ (result ≡ Err FolderBad.Oom) }
{
    if !text.bytes().is_empty() {
        return Ok(text);
    }
    match name.copy(alloc) {
        Ok(file) => Err(FolderBad::Empty { file }),
        Err(_) => Err(FolderBad::Oom),
    }
}

/// The text of one folder.
pub fn read_folder<F: Files>(
    alloc: Global,
    files: &mut F,
    folder: &Folder,
    meter: &mut Meter,
) -> Result<Content, FolderBad>
    ensures { Reads (plan folder_errors (folder_plan folder.now)) (stand F.Files files.old) (stand F.Files files.new) meter.old meter.new result }
{
    match ask::<F, FolderBad>(alloc, files, &folder.first, meter)? {
        Some(text) => fill(alloc, &folder.first, text),
        None => {
            let text = want::<F, FolderBad>(alloc, files, &folder.second, meter)?;
            fill(alloc, &folder.second, text)
        }
    }
}

/// The texts of several folders, in order.
pub fn read_folders<F: Files>(
    alloc: Global,
    files: &mut F,
    folders: &[Folder],
    meter: &mut Meter,
) -> Result<Texts, FolderBad>
    ensures { Reads (plan folder_errors (folders_plan [] folders.now)) (stand F.Files files.old) (stand F.Files files.new) meter.old meter.new result }
{
    let mut texts = Texts::new(alloc);
    for folder in folders {
        let text = read_folder(alloc, files, folder, meter)?;
        match texts.push(text) {
            Ok(()) => {}
            Err(_) => return Err(FolderBad::Oom),
        }
    }
    Ok(texts)
}
