ghost use Rattle.std.specs.Prelude.{◌≡◌, codes};
ghost use Rattle.std.specs.Option.{option_map_or};
ghost use Rattle.ut_words.specs.Options.{a_style, options};
ghost use Rattle.ut_words.specs.Reading.{Reads, Tests, some_if};
ghost use Rattle.ut_words.specs.Said.{Said, given};
ghost use Rattle.ut_words.specs.Words as spec;
ghost use Rattle.ut_words.specs.declared.order.Style.TheVariants as style;
ghost use Rattle.ut_words.specs.declared.order.UsageKind.TheVariants as usage;

use crate::bad::WordsBad;
use crate::order::{Style, UsageKind};
use crate::reading::value;
use clap::ArgMatches;

/// The style that is given, or `simple`.
pub fn style_in(matches: &ArgMatches<'_>) -> Result<Style, WordsBad>
    ensures { (said : Said) → Reads said matches.now
        → Tests usage.Style (spec.are_right usage.Style options said) (option_map_or spec.style_of (given (codes "--style") said) style.Simple) result }
{
    let Some(text) = value(matches, "--style") else {
        return Ok(Style::Simple);
    };
    match style_of(text) {
        Some(style) => Ok(style),
        None => Err(WordsBad::Usage(UsageKind::Style)),
    }
}

fn style_of(text: &str) -> Option<Style>
    ensures { result ≡ some_if (a_style.fits text.now) (spec.style_of text.now) }
{
    if text == "simple" {
        return Some(Style::Simple);
    }
    if text == "min" {
        return Some(Style::Min);
    }
    None
}
