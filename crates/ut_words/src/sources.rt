ghost use Rattle.std.specs.Prelude.{◌≡◌, ◌&&◌, IfOk, codes, map, not, option_map};
ghost use Rattle.std.specs.List.{list_all};
ghost use Rattle.ut_base.specs.Names.{is_name};
ghost use Rattle.ut_words.specs.Reading.{Reads, Tests, some_if};
ghost use Rattle.ut_words.specs.Said.{Said};
ghost use Rattle.ut_words.specs.Spelled.{begins_with};
ghost use Rattle.ut_words.specs.Words.{are_sources};
ghost use Rattle.ut_words.specs.declared.order.UsageKind.TheVariants as usage;

use crate::bad::WordsBad;
use crate::distinct::are_distinct;
use crate::order::UsageKind;
use crate::reading::files;
use clap::ArgMatches;
use std::alloc::{AllocError, Global};
use ut_base::Name;
use ut_logic::Sequence;

/// The sources in order, if each has a name that doesn't begin with a space, and none stands twice.
pub fn sources_in(alloc: Global, matches: &ArgMatches<'_>) -> Result<Sequence<Name>, WordsBad>
    ensures { (said : Said) → Reads said matches.now → Tests usage.File (are_sources said.files) said.files result }
{
    let files = files(matches);
    let Some(names) = each_name(alloc, files)? else {
        return Err(WordsBad::Usage(UsageKind::File));
    };
    if !are_distinct(alloc, files)? {
        return Err(WordsBad::Usage(UsageKind::File));
    }
    Ok(Sequence::from_vec(names))
}

fn each_name(alloc: Global, files: &[&str]) -> Result<Option<Vec<Name>>, AllocError>
    ensures { let names = map (λ file. file.now) files.now in IfOk result (λ found. option_map (λ names. names.items) found
        ≡ some_if (list_all (λ file. is_name file && not (begins_with (codes " ") file)) names) names) }
{
    let mut names = Vec::new(alloc);
    for file in files {
        let Some(name) = source_name(alloc, file)? else {
            return Ok(None);
        };
        names.push(name)?;
    }
    Ok(Some(names))
}

fn source_name(alloc: Global, file: &str) -> Result<Option<Name>, AllocError>
    ensures { IfOk result (λ found. found ≡ some_if (is_name file.now && not (begins_with (codes " ") file.now)) file.now) }
{
    if file.as_bytes().starts_with(b" ") {
        return Ok(None);
    }
    Name::new(alloc, file)
}
