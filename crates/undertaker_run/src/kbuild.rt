ghost use Rattle.ut_base.specs.Reading.{Reads, stand};
ghost use Rattle.undertaker_run.specs.Texts.{kbuild_of};

use crate::bad::Bad;
use kbuild_cond::{FileConds, read_kbuild};
use std::alloc::Global;
use ut_base::{Files, Meter, Name};

/// The files that Kbuild texts name, from a root text on; no file where none is given.
pub(crate) fn read_conds<F: Files>(
    alloc: Global,
    files: &mut F,
    root: &Option<Name>,
    meter: &mut Meter,
) -> Result<FileConds, Bad>
    ensures { Reads (kbuild_of root.now) (stand F.Files files.old) (stand F.Files files.new) meter.old meter.new result }
{
    match root {
        None => Ok(FileConds::nothing(alloc)?),
        Some(root) => Ok(read_kbuild(alloc, files, root, meter)?),
    }
}
