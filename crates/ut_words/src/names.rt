ghost use Rattle.std.specs.Prelude.{◌≡◌, true};
ghost use Rattle.ut_words.specs.Options.{a_file, options};
ghost use Rattle.ut_words.specs.Reading.{Reads, Tests, is_valued, names_of};
ghost use Rattle.ut_words.specs.Said.{Said, given};
ghost use Rattle.ut_words.specs.Words.{are_right, fits_if_given};
ghost use Rattle.ut_words.specs.declared.order.UsageKind.TheVariants as usage;

use crate::bad::WordsBad;
use crate::order::UsageKind;
use crate::reading::value;
use clap::ArgMatches;
use std::alloc::Global;
use ut_base::Name;

/// The names of files that options give.
#[derive(Drop)]
pub struct Names {
    pub model: Option<Name>,
    pub kconfig: Option<Name>,
    pub rsf: Option<Name>,
    pub kbuild: Option<Name>,
    pub report: Option<Name>,
    pub trace: Option<Name>,
    pub white: Option<Name>,
    pub black: Option<Name>,
}

/// The files that options name, if each is the name of a file.
pub fn names_in(alloc: Global, matches: &ArgMatches<'_>) -> Result<Names, WordsBad>
    ensures { (said : Said) → Reads said matches.now → Tests usage.File (are_right usage.File options said) (names_of said) result }
{
    let model = name(alloc, matches, "-m")?;
    let kconfig = name(alloc, matches, "--kconfig")?;
    let rsf = name(alloc, matches, "--rsf")?;
    let kbuild = name(alloc, matches, "--kbuild")?;
    let report = name(alloc, matches, "--report")?;
    let trace = name(alloc, matches, "--trace")?;
    let white = name(alloc, matches, "--white")?;
    let black = name(alloc, matches, "--black")?;
    Ok(Names {
        model,
        kconfig,
        rsf,
        kbuild,
        report,
        trace,
        white,
        black,
    })
}

// The file that an option names, if it is given, and if it is the name of a file.
fn name(alloc: Global, matches: &ArgMatches<'_>, option: &str) -> Result<Option<Name>, WordsBad>
    requires { is_valued option.now ≡ true }
    ensures { (said : Said) → Reads said matches.now
        → Tests usage.File (fits_if_given a_file option.now said) (given option.now said) result }
{
    let Some(text) = value(matches, option) else {
        return Ok(None);
    };
    match Name::new(alloc, text)? {
        Some(name) => Ok(Some(name)),
        None => Err(WordsBad::Usage(UsageKind::File)),
    }
}
