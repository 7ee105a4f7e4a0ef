ghost use Rattle.std.specs.Prelude.{◌≡◌, ◌⊎◌, Err};
ghost use Rattle.ut_base.specs.Names.{folder_of};
ghost use Rattle.ut_base.specs.Plans.{plan};
ghost use Rattle.ut_base.specs.Reading.{Reads, stand};
ghost use Rattle.kbuild_folders.specs.Errors.{kbuild_errors};
ghost use Rattle.kbuild_cond.specs.Reading.{conds_of, kbuild_plan};

use crate::files::files_of;
use crate::ways::folder_paths;
use kbuild_files::FileConds;
use kbuild_folders::{KbuildBad, TextRead, read_texts};
use std::alloc::Global;
use ut_base::{Files, Meter, Name};

/// The part of a name up to and with its last `/`.
fn folder_of(name: &[u8]) -> &[u8]
    ensures { result.now ≡ folder_of name.now }
{
    let mut end = name.len();
    while end > 0 && name[end - 1] != b'/' {
        end -= 1;
    }
    &name[..end]
}

/// The files that texts name, within the limit on paths.
fn conds_from(alloc: Global, base: &[u8], texts: &[TextRead]) -> Result<FileConds, KbuildBad>
    ensures { (result ≡ conds_of base.now texts.now) ⊎ (result ≡ Err KbuildBad.Oom) }
{
    let folders = folder_paths(alloc, base, texts)?;
    files_of(alloc, base, texts, &folders)
}

/// Reads Kbuild texts from the root text on.
///
/// The first refusal in reading order counts; after every answer the meter holds the bytes taken.
pub fn read_kbuild<F: Files>(
    alloc: Global,
    files: &mut F,
    root: &Name,
    meter: &mut Meter,
) -> Result<FileConds, KbuildBad>
    ensures { Reads (plan kbuild_errors (kbuild_plan root.now)) (stand F.Files files.old) (stand F.Files files.new) meter.old meter.new result }
{
    let base = folder_of(root.text().as_bytes());
    let texts = read_texts(alloc, files, root, base, meter)?;
    conds_from(alloc, base, texts.reads.as_slice())
}
