ghost use Rattle.std.specs.Prelude.{◌≡◌};
ghost use Rattle.undertaker_run.specs.Inner.{IsOrdered};
ghost use Rattle.undertaker_run.specs.Orders as spec;

use crate::bad::Bad;
use std::alloc::Global;
use ut_base::Word;
use ut_words::{Job, Order, UsageKind, WordsBad, parse};

/// Whether a job is built.
fn is_built(job: Job) -> bool
    ensures { result ≡ spec.is_built job }
{
    matches!(job, Job::Golem)
}

/// The order of the words, if its job is built.
pub(crate) fn order_of(alloc: Global, words: &[Word]) -> Result<Order, Bad>
    ensures { IsOrdered (spec.order_of words.now) result }
{
    match parse(alloc, words) {
        Ok(order) if is_built(order.job) => Ok(order),
        Ok(_) => Err(Bad::Usage(UsageKind::Job)),
        Err(WordsBad::Usage(kind)) => Err(Bad::Usage(kind)),
        Err(WordsBad::Oom) => Err(Bad::Oom),
    }
}
