ghost use Rattle.std.specs.Prelude.{◌≡◌, ◌≤◌, IfSome, true, option_map};
ghost use Rattle.std.specs.List.{list_all};
ghost use Rattle.ut_text.specs.ByteClasses.{is_digit};
ghost use Rattle.ut_words.specs.Options.{a_number, options};
ghost use Rattle.ut_words.specs.Reading.{Reads, is_valued, numbers_of, some_if};
ghost use Rattle.ut_words.specs.Said.{Said, given};
ghost use Rattle.ut_words.specs.Values as spec;
ghost use Rattle.ut_words.specs.Words.{are_right, fits_if_given};
ghost use Rattle.ut_words.specs.declared.order.UsageKind.TheVariants as usage;

use crate::reading::value;
use clap::ArgMatches;
use ut_text::{is_digit, numeral};

/// The numbers that options give, or their defaults.
#[derive(Drop)]
pub struct Numbers {
    pub workers: u32,
    pub steps: u64,
    pub size: Option<u32>,
}

/// The numbers, if each has its form.
pub fn numbers_in(matches: &ArgMatches<'_>) -> Option<Numbers>
    ensures { (said : Said) → Reads said matches.now → result ≡ some_if (are_right usage.Number options said) (numbers_of said) }
{
    let workers = number(matches, "-t", 1, 64)?;
    let steps = number(matches, "--steps", 0, 1_000_000_000_000)?;
    let size = number(matches, "--size", 1, 10_000)?;
    Some(Numbers {
        workers: workers.unwrap_or(1) as u32,
        steps: steps.unwrap_or(4_000_000),
        size: size.map(|size| size as u32),
    })
}

// The number of an option, if it is given, and if it has the form.
fn number(matches: &ArgMatches<'_>, name: &str, first: u64, last: u64) -> Option<Option<u64>>
    requires { is_valued name.now ≡ true }
    ensures value { (said : Said) → Reads said matches.now
        → result ≡ some_if (fits_if_given (a_number first last) name.now said) (option_map spec.number_of (given name.now said)) }
    ensures most { IfSome result (λ found. IfSome found (λ n. n ≤ last)) }
{
    match value(matches, name) {
        None => Some(None),
        Some(text) => Some(Some(number_between(text, first, last)?)),
    }
}

fn number_between(text: &str, first: u64, last: u64) -> Option<u64>
    ensures value { result ≡ some_if ((a_number first last).fits text.now) (spec.number_of text.now) }
    ensures most { IfSome result (λ n. n ≤ last) }
{
    let digits = text.as_bytes();
    if !is_number(digits) {
        return None;
    }
    let number = numeral(digits)?;
    if number < first || last < number {
        return None;
    }
    Some(number)
}

// 1 to 13 digits without a leading zero, except `0`.
fn is_number(text: &[u8]) -> bool
    ensures { result ≡ spec.is_number text.now }
{
    if text.is_empty() || text.len() > 13 {
        return false;
    }
    are_digits(text) && (text == b"0".as_slice() || !text.starts_with(b"0"))
}

/// Whether each byte is a digit.
pub fn are_digits(text: &[u8]) -> bool
    ensures { result ≡ list_all is_digit text.now }
{
    text.iter().all(|byte| is_digit(*byte))
}
