ghost use Rattle.std.specs.Prelude.{◌≡◌};
ghost use Rattle.cpp_read.specs.Directives as spec;
ghost use Rattle.cpp_read.specs.Tokens as token_specs;
ghost use Rattle.cpp_read.specs.Condition.{condition};
ghost use Rattle.cpp_read.specs.SpanSteps.{Says};
ghost use Rattle.cpp_directives.specs.Refusals.{Answers};

use crate::number::{Whole, read_whole};
use crate::reader::read_condition;
use crate::tokens::{next_token, tokens_of};
use crate::words::{Word, after_white, begins_name, split_name};
use cpp_directives::{Cond, CppBad, Gives, What};
use sqlite_items::Boxed;
use std::alloc::Global;
use ut_text::Text;

/// The name that a text begins with.
fn named(alloc: Global, text: &[u8], line: u32) -> Result<Text, CppBad>
    ensures { Answers result (spec.named text.now line) }
{
    if !begins_name(text) {
        return Err(CppBad::NoName { line });
    }
    let (name, _) = split_name(text);
    Ok(Text::of_name(alloc, name)?)
}

/// Whether a text begins with `(`.
fn begins_open(text: &[u8]) -> bool
    ensures { result ≡ spec.begins_open text.now }
{
    match text {
        [first, ..] => *first == b'(',
        [] => false,
    }
}

/// The truth of a macro whose body is this number.
fn whole_gives(whole: Whole) -> Gives
    ensures { result ≡ spec.whole_gives whole }
{
    match whole {
        Whole::NotWhole => Gives::Free,
        Whole::Zero => Gives::Zero,
        Whole::Nonzero | Whole::Wide => Gives::Nonzero,
    }
}

/// What a body gives: its truth where it is one whole number.
fn body_gives(text: &[u8]) -> Gives
    ensures { result ≡ spec.body_gives (token_specs.spellings_of text.now) }
{
    let Some((body, rest)) = next_token(text) else {
        return Gives::Free;
    };
    match next_token(rest) {
        Some(_) => Gives::Free,
        None => whole_gives(read_whole(body)),
    }
}

/// What stands after a macro's name gives.
fn gives_of(text: &[u8]) -> Gives
    ensures { result ≡ spec.gives_of text.now }
{
    if begins_open(text) {
        Gives::Free
    } else {
        body_gives(text)
    }
}

/// The condition that stands on a line.
fn condition_of(alloc: Global, text: &[u8], line: u32) -> Result<Cond, CppBad>
    ensures { Answers result (condition line (token_specs.tokens_of text.now)) }
{
    let tokens = tokens_of(alloc, text)?;
    read_condition(alloc, &tokens, line)
}

/// That a name is not defined.
fn undefined(alloc: Global, text: &[u8], line: u32) -> Result<Cond, CppBad>
    ensures { Answers result (spec.undefined text.now line) }
{
    let name = named(alloc, text, line)?;
    Ok(Cond::Neg(Boxed::new(alloc, Cond::Defined(name))?))
}

/// `#define` of a name.
fn definition(alloc: Global, text: &[u8], line: u32) -> Result<What, CppBad>
    ensures { Answers result (spec.definition text.now line) }
{
    let name = named(alloc, text, line)?;
    let (_, body) = split_name(text);
    Ok(What::Define {
        name,
        gives: gives_of(body),
    })
}

/// What a directive's word and the text after it say.
pub fn what_of(alloc: Global, word: Word, text: &[u8], line: u32) -> Result<Option<What>, CppBad>
    ensures { Says result (spec.what_of word text.now line) }
{
    match word {
        Word::If => {
            let cond = condition_of(alloc, text, line)?;
            Ok(Some(What::If(cond)))
        }
        Word::Elif => {
            let cond = condition_of(alloc, text, line)?;
            Ok(Some(What::Elif(cond)))
        }
        Word::Ifdef => {
            let name = named(alloc, after_white(text), line)?;
            Ok(Some(What::If(Cond::Defined(name))))
        }
        Word::Ifndef => {
            let cond = undefined(alloc, after_white(text), line)?;
            Ok(Some(What::If(cond)))
        }
        Word::Elifdef => {
            let name = named(alloc, after_white(text), line)?;
            Ok(Some(What::Elif(Cond::Defined(name))))
        }
        Word::Elifndef => {
            let cond = undefined(alloc, after_white(text), line)?;
            Ok(Some(What::Elif(cond)))
        }
        Word::Else => Ok(Some(What::Else)),
        Word::Endif => Ok(Some(What::Endif)),
        Word::Define => {
            let what = definition(alloc, after_white(text), line)?;
            Ok(Some(what))
        }
        Word::Undef => {
            let name = named(alloc, after_white(text), line)?;
            Ok(Some(What::Undef { name }))
        }
        Word::Other => Ok(None),
    }
}
