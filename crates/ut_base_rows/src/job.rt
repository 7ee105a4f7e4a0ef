ghost use Rattle.ut_base.specs.Reading.{Reads, stand};
ghost use Rattle.ut_base_rows.specs.Jobs.{wholes_of};

use crate::folder::Folder;
use crate::{JobBad, Texts, read_folders, read_sources};
use std::alloc::Global;
use ut_base::{Files, Meter, Name};

/// What a job reads.
#[derive(Drop)]
pub struct Wanted {
    pub folders: Vec<Folder>,
    pub sources: Vec<Name>,
}

/// What a job has read.
#[derive(Drop)]
pub struct Wholes {
    pub folders: Texts,
    pub sources: Texts,
}

/// The folders, and then the sources.
pub fn read_wholes<F: Files>(
    alloc: Global,
    files: &mut F,
    wanted: &Wanted,
    meter: &mut Meter,
) -> Result<Wholes, JobBad>
    ensures { Reads (wholes_of wanted.now) (stand F.Files files.old) (stand F.Files files.new) meter.old meter.new result }
{
    let folders = read_folders(alloc, files, &wanted.folders, meter)?;
    let sources = read_sources(alloc, files, &wanted.sources, meter)?;
    Ok(Wholes { folders, sources })
}
