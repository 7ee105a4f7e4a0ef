ghost use Rattle.ut_base.specs.Reading.{stand};
ghost use Rattle.undertaker_run.specs.Inner.{OrMemory, Works};
ghost use Rattle.undertaker_run.specs.Work.{IsDone};

use crate::bad::Bad;
use crate::jobs::golem;
use crate::orders::order_of;
use crate::output::Output;
use crate::texts::{Texts, read_texts};
use std::alloc::Global;
use ut_base::{Files, Meter, Word};
use ut_words::Order;

/// What the job makes of the texts.
fn done(alloc: Global, _order: &Order, texts: &Texts) -> Result<Output, Bad>
    ensures { OrMemory (IsDone _order.now texts.now) result }
{
    golem(alloc, texts)
}

/// The whole text of a run, or its first refusal in the order of work: the words, the texts one after another, the job.
pub(crate) fn work<F: Files>(alloc: Global, words: &[Word], files: &mut F) -> Result<Output, Bad>
    ensures { Works words.now (stand F.Files files.old) (stand F.Files files.new) result }
{
    let order = order_of(alloc, words)?;
    let mut meter = Meter::new();
    let texts = read_texts(alloc, files, &order, &mut meter)?;
    done(alloc, &order, &texts)
}
