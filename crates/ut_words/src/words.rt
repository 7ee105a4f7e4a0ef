ghost use Rattle.std.specs.Prelude.{◌≡◌, IfOk, Ok, Err, Some};
ghost use Rattle.ut_words.specs.Jobs.{jobs};
ghost use Rattle.ut_words.specs.Options.{options};
ghost use Rattle.ut_words.specs.Reading.{Answers, Reads};
ghost use Rattle.ut_words.specs.Said.{Said};
ghost use Rattle.ut_words.specs.Words.{order_of, order_said};
ghost use Rattle.ut_words.specs.declared.order.UsageKind.{UsageKind};

use crate::bad::WordsBad;
use crate::jobs::{has_needs, job_of};
use crate::names::{Names, names_in};
use crate::numbers::numbers_in;
use crate::order::{Order, UsageKind};
use crate::reading::{evidence, matches_in, texts_of, value};
use crate::sources::sources_in;
use crate::styles::style_in;
use crate::vars::vars_in;
use clap::ArgMatches;
use std::alloc::Global;
use ut_base::Word;

/// The order that the words give. The words are those after the program's name.
///
/// `Usage` where they aren't of the form of the manual: its kind is that of the first test that they don't pass.
/// `Oom` where memory runs out.
pub fn parse(alloc: Global, words: &[Word]) -> Result<Order, WordsBad>
    ensures order { IfOk result (λ order. order_of words.now ≡ Ok order) }
    ensures usage { (kind : UsageKind) → result ≡ Err (WordsBad.Usage kind) → order_of words.now ≡ Err kind }
{
    let texts = texts_of(alloc, words)?;
    let matches = matches_in(alloc, texts.as_slice())?;
    order_in(alloc, &matches)
}

fn order_in(alloc: Global, matches: &ArgMatches<'_>) -> Result<Order, WordsBad>
    ensures { (said : Said) → Reads said matches.now → Answers result (order_said options jobs (Some said)) }
{
    let Some(job) = job_of(value(matches, "-j").unwrap_or("dead")) else {
        return Err(WordsBad::Usage(UsageKind::Job));
    };
    let supplied = has_needs(job, matches);
    let Some(numbers) = numbers_in(matches) else {
        return Err(WordsBad::Usage(UsageKind::Number));
    };
    let style = style_in(matches)?;
    let vars = vars_in(alloc, matches)?;
    if !supplied {
        return Err(WordsBad::Usage(UsageKind::Needs));
    }
    let names = names_in(alloc, matches)?;
    let files = sources_in(alloc, matches)?;
    Ok(Order {
        job,
        model: names.model,
        workers: numbers.workers,
        kconfig: names.kconfig,
        rsf: names.rsf,
        kbuild: names.kbuild,
        vars,
        steps: numbers.steps,
        evidence: evidence(matches),
        report: names.report,
        trace: names.trace,
        white: names.white,
        black: names.black,
        style,
        size: numbers.size,
        files,
    })
}
