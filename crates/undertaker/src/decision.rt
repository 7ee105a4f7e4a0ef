ghost use Rattle.std.specs.Prelude.{IfOk, false};
ghost use Rattle.kconf_tree.specs.Gathered.{gathered};
ghost use Rattle.undertaker.specs.Report.{AreWords};
ghost use Rattle.undertaker.specs.FirstEntries.{IsFirstTree};
ghost use Rattle.undertaker.specs.Plain.{IsFirstSource};

use crate::dependencies::Dependencies;
use crate::judging::words_of_steps;
use crate::steps::steps_of;
use cpp_directives::Directive;
use kconf_entries::Entries;
use std::alloc::{AllocError, Global};
use ut_case::Word;

/// The word on each block in order, for texts of the first form.
///
/// A block asks some macros to be defined and others not. It can be on if nothing that it needs, directly or through
/// dependencies, must be off.
pub(crate) fn words_of(
    alloc: Global,
    entries: &Entries,
    directives: &[Directive],
) -> Result<Vec<Word>, AllocError>
    requires tree { IsFirstTree entries.now }
    requires source { IsFirstSource directives.now }
    ensures { IfOk result (λ words. AreWords (gathered entries.now) directives.now (λ block f ask. false) words.items) }
{
    let graph = Dependencies::of(alloc, entries)?;
    let steps = steps_of(alloc, &graph, directives)?;
    words_of_steps(alloc, &graph, &steps)
}
