//! The words, as clap reads them by the command.
ghost use Rattle.std.specs.Prelude.{◌≡◌, ◌⊎◌, [], IfOk, MatchResult, map, option_map, true, unwrap_or, codes};
ghost use Rattle.std.specs.Option.{IsSomeAnd};
ghost use Rattle.clap.specs.Words.{fault_of, found_of, kind_of, matches_of, rows_of, HasKind};
ghost use Rattle.clap.specs.declared.error.kind.ErrorKind.TheVariants as kind;
ghost use Rattle.ut_words.specs.Command.{the_app};
ghost use Rattle.ut_words.specs.Options.{options};
ghost use Rattle.ut_words.specs.Reading.{AreUtf8, IsRefusal, Reads, is_valued};
ghost use Rattle.ut_words.specs.Said.{Said, given, is_given, said_by};

use crate::bad::WordsBad;
use crate::command::command;
use crate::order::UsageKind;
use clap::error::ErrorKind;
use clap::{ArgMatches, Error};
use std::alloc::{AllocError, Global};
use ut_base::Word;

/// The texts of the words.
pub fn texts_of(alloc: Global, words: &[Word]) -> Result<Vec<&str>, AllocError>
    ensures same { IfOk result (λ texts. map (λ t. t.now) texts.items ≡ words.now) }
    ensures utf8 { IfOk result (λ texts. AreUtf8 (map (λ t. t.now) texts.items)) }
{
    let mut texts = Vec::new(alloc);
    for word in words {
        let text = word.text();
        texts.push(text)?;
    }
    Ok(texts)
}

/// What clap finds in the texts; they are refused where the command has a fault at them.
pub fn matches_in<'a>(alloc: Global, texts: &'a [&'a str]) -> Result<ArgMatches<'a>, WordsBad>
    requires { AreUtf8 (map (λ t. t.now) texts.now) }
    ensures { let said = said_by options (map (λ t. t.now) texts.entry.now) in
        MatchResult result (λ m. IsSomeAnd said (λ s. Reads s m)) (λ bad. IsRefusal bad said) }
{
    match parsed(alloc, texts) {
        Ok(matches) => Ok(matches),
        Err(error) => Err(refusal(&error)),
    }
}

fn parsed<'a>(alloc: Global, texts: &'a [&'a str]) -> Result<ArgMatches<'a>, Error>
    ensures { let words = map (λ t. t.now) texts.entry.now in MatchResult result
        (λ m. (fault_of the_app words ≡ []) × (rows_of (found_of m) ≡ matches_of the_app words))
        (HasKind (fault_of the_app words)) }
{
    command(alloc)?.try_get_matches_from(texts)
}

fn refusal(error: &Error) -> WordsBad
    ensures memory { kind_of error.now ≡ kind.OutOfMemory → result ≡ WordsBad.Oom }
    ensures words { (result ≡ WordsBad.Oom) ⊎ (result ≡ WordsBad.Usage UsageKind.Words) }
{
    match error.kind() {
        ErrorKind::OutOfMemory => WordsBad::Oom,
        _ => WordsBad::Usage(UsageKind::Words),
    }
}

/// The value of an option that takes one, where it is given.
pub fn value<'a>(matches: &ArgMatches<'a>, name: &str) -> Option<&'a str>
    requires { is_valued name.now ≡ true }
    ensures { (said : Said) → Reads said matches.now → option_map (λ v. v.now) result ≡ given name.now said }
{
    matches.get_str(name)
}

/// Whether the flag `--evidence` is given.
pub fn evidence(matches: &ArgMatches<'_>) -> bool
    ensures { (said : Said) → Reads said matches.now → result ≡ is_given said (codes "--evidence") }
{
    match matches.get_str("--evidence") {
        Some(text) => text == "true",
        None => false,
    }
}

/// The FILE words in order.
pub fn files<'m>(matches: &'m ArgMatches<'_>) -> &'m [&'m str]
    ensures { (said : Said) → Reads said matches.now → map (λ f. f.now) result.now ≡ said.files }
{
    matches.get_strs("FILE").unwrap_or(&[])
}
