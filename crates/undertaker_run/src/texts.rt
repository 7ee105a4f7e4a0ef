ghost use Rattle.ut_base.specs.Reading.{Reads, stand};
ghost use Rattle.undertaker_run.specs.Texts.{texts_of, wanted_of};

use crate::bad::Bad;
use crate::kbuild::read_conds;
use kbuild_cond::FileConds;
use std::alloc::Global;
use ut_base::{Files, Meter};
use ut_words::Order;

/// What a run has read.
#[derive(Drop)]
pub struct Texts {
    /// The files that Kbuild texts name, each with its paths.
    pub kbuild: FileConds,
}

/// All texts of an order, one after another.
pub(crate) fn read_texts<F: Files>(
    alloc: Global,
    files: &mut F,
    order: &Order,
    meter: &mut Meter,
) -> Result<Texts, Bad>
    ensures { Reads (texts_of (wanted_of order.now)) (stand F.Files files.old) (stand F.Files files.new) meter.old meter.new result }
{
    let kbuild = read_conds(alloc, files, &order.kbuild, meter)?;
    Ok(Texts { kbuild })
}
