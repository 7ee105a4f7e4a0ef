ghost use Rattle.std.specs.Prelude.{◌≡◌, IfOk};
ghost use Rattle.undertaker.specs.Words.{names_in};

use std::alloc::{AllocError, Global};
use ut_base::{Name, Word};

/// The names of the Kconfig text and the source, where the words are `-j dead --kconfig K F`.
pub(crate) fn names_of(alloc: Global, words: &[Word]) -> Result<Option<(Name, Name)>, AllocError>
    ensures { IfOk result (λ names. names ≡ names_in words.now) }
{
    let [j, job, option, kconfig, source] = words else {
        return Ok(None);
    };
    if j.text() != "-j" || job.text() != "dead" || option.text() != "--kconfig" {
        return Ok(None);
    }
    let Some(kconfig) = Name::new(alloc, kconfig.text())? else {
        return Ok(None);
    };
    let Some(source) = Name::new(alloc, source.text())? else {
        return Ok(None);
    };
    if kconfig == source {
        return Ok(None);
    }
    Ok(Some((kconfig, source)))
}
