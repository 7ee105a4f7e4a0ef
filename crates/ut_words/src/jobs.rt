ghost use Rattle.std.specs.Prelude.{◌≡◌, ◌∷◌, [], MatchOption, None, Some, codes, true};
ghost use Rattle.ut_words.specs.Jobs.{a_source, grounds, job_named, jobs, one_of, row_of, some_of};
ghost use Rattle.ut_words.specs.Reading.{Reads, is_valued};
ghost use Rattle.ut_words.specs.Said.{Said};
ghost use Rattle.ut_words.specs.Said as spec;

use crate::order::Job;
use crate::reading::{files, value};
use clap::ArgMatches;

/// The job of a name, if it is built.
pub fn job_of(name: &str) -> Option<Job>
    ensures { MatchOption result (job_named jobs name.now ≡ None) (λ job. job_named jobs name.now ≡ Some (row_of job)) }
{
    if name == "dead" {
        return Some(Job::Dead);
    }
    if name == "golem" {
        return Some(Job::Golem);
    }
    if name == "generate" {
        return Some(Job::Generate);
    }
    None
}

/// Whether the words give what the job needs.
pub fn has_needs(job: Job, matches: &ArgMatches<'_>) -> bool
    ensures { (said : Said) → Reads said matches.now → result ≡ (row_of job).needs said }
{
    match job {
        Job::Dead | Job::Coverage => has_ground(matches) && has_source(matches),
        Job::Check => has_ground(matches) && has_source(matches) && is_given(matches, "--report"),
        Job::Tailor => has_ground(matches) && has_list(matches),
        Job::Dumpconf => is_given(matches, "--kconfig"),
        Job::Model => is_given(matches, "--kconfig") != is_given(matches, "--rsf"),
        Job::Golem => is_given(matches, "--kbuild"),
        Job::Generate => is_given(matches, "--size"),
    }
}

fn is_given(matches: &ArgMatches<'_>, name: &str) -> bool
    requires { is_valued name.now ≡ true }
    ensures { (said : Said) → Reads said matches.now → result ≡ spec.is_given said name.now }
{
    value(matches, name).is_some()
}

// One of the three texts that jobs read first, and no second one.
fn has_ground(matches: &ArgMatches<'_>) -> bool
    ensures { (said : Said) → Reads said matches.now → result ≡ one_of grounds said }
{
    let kconfig = is_given(matches, "--kconfig");
    let rsf = is_given(matches, "--rsf");
    let model = is_given(matches, "-m");
    if kconfig {
        return !rsf && !model;
    }
    rsf != model
}

fn has_source(matches: &ArgMatches<'_>) -> bool
    ensures { (said : Said) → Reads said matches.now → result ≡ a_source said }
{
    !files(matches).is_empty()
}

fn has_list(matches: &ArgMatches<'_>) -> bool
    ensures { (said : Said) → Reads said matches.now → result ≡ some_of (codes "--trace" ∷ codes "--white" ∷ codes "--black" ∷ []) said }
{
    is_given(matches, "--trace") || is_given(matches, "--white") || is_given(matches, "--black")
}
