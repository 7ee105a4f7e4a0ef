ghost use Rattle.undertaker_run.specs.Inner.{OrMemory};
ghost use Rattle.undertaker_run.specs.Jobs.Golem.{IsGolem};

use crate::bad::Bad;
use crate::output::Output;
use crate::texts::Texts;
use kbuild_cond::golem_text;
use std::alloc::Global;

/// One line for each object that Kbuild texts name: its name, and the paths by which it is built.
pub(crate) fn golem(alloc: Global, texts: &Texts) -> Result<Output, Bad>
    ensures { OrMemory (IsGolem texts.now) result }
{
    let text = golem_text(alloc, &texts.kbuild)?;
    Ok(Output::new(text))
}
