ghost use Rattle.std.specs.Prelude.{◌≡◌, IfOk, Some};
ghost use Rattle.std.specs.Option.{option_map};
ghost use Rattle.kconf_cut.specs.Words as spec;
ghost use Rattle.kconf_cut.specs.Reading as inner;

use crate::calls::begins_call;
use crate::held::read_parts;
use crate::parts::{Run, is_word_byte};
use crate::values::Values;
use kconf_words::{Form, LineWord};
use std::alloc::{AllocError, Global};
use ut_logic::Sequence;
use ut_text::unblanked;

/// Whether a sign of two bytes stands at the front.
fn is_pair(text: &[u8]) -> bool
    ensures { result ≡ spec.is_pair text.now }
{
    text.starts_with(b"!=".as_slice())
        || text.starts_with(b"<=".as_slice())
        || text.starts_with(b">=".as_slice())
        || text.starts_with(b"&&".as_slice())
        || text.starts_with(b"||".as_slice())
}

/// A quote mark.
pub fn is_mark(byte: u8) -> bool
    ensures { result ≡ spec.is_mark byte }
{
    byte == b'"' || byte == b'\''
}

/// The quoted word that was read, where its mark stands after it, and what stands after that.
fn quoted_end<'t>(
    mark: u8,
    text: Vec<u8>,
    has_call: bool,
    rest: &'t [u8],
) -> Option<(LineWord, &'t [u8])>
    ensures { option_map inner.word_now result ≡ inner.quoted_by mark (record { text = text.items; has_call = has_call; rest = rest.now }) }
{
    let [byte, after @ ..] = rest else {
        return None;
    };
    if *byte != mark {
        return None;
    }
    let word = LineWord {
        form: Form::Quoted,
        text: Sequence::from_vec(text),
        has_call,
    };
    Some((word, after))
}

/// The quoted word whose mark stands before this text, and what stands after it, where it has its end.
#[tactic(auto, using(crate::proofs::PartLemmas::quoted_read))]
fn quoted_word<'t>(
    alloc: Global,
    vars: &Values<'_>,
    mark: u8,
    inside: &'t [u8],
) -> Result<Option<(LineWord, &'t [u8])>, AllocError>
    ensures { IfOk result (λ w. option_map inner.word_now w ≡ inner.quoted_of vars.now mark inside.now) }
{
    let held = read_parts(alloc, vars, Run::QuotedBy(mark), inside)?;
    Ok(quoted_end(mark, held.text, held.has_call, held.rest))
}

/// The unquoted word that was read, where no call without its end stands after it, and what stands after it.
fn unquoted_end<'t>(text: Vec<u8>, has_call: bool, rest: &'t [u8]) -> Option<(LineWord, &'t [u8])>
    ensures { option_map inner.word_now result ≡ inner.unquoted_by (record { text = text.items; has_call = has_call; rest = rest.now }) }
{
    if begins_call(rest) {
        return None;
    }
    let word = LineWord {
        form: Form::Bare,
        text: Sequence::from_vec(text),
        has_call,
    };
    Some((word, rest))
}

/// The unquoted word at the front, and what stands after it, where each of its calls has an end.
#[tactic(auto, using(crate::proofs::PartLemmas::unquoted_read))]
fn unquoted_word<'t>(
    alloc: Global,
    vars: &Values<'_>,
    text: &'t [u8],
) -> Result<Option<(LineWord, &'t [u8])>, AllocError>
    ensures { IfOk result (λ w. option_map inner.word_now w ≡ inner.unquoted_of vars.now text.now) }
{
    let held = read_parts(alloc, vars, Run::Unquoted, text)?;
    Ok(unquoted_end(held.text, held.has_call, held.rest))
}

/// The sign of so many bytes at the front, and what stands after it.
#[tactic(auto, using(crate::proofs::PartLemmas::take_min, crate::proofs::PartLemmas::drop_min))]
fn sign<'t>(
    alloc: Global,
    size: usize,
    text: &'t [u8],
) -> Result<Option<(LineWord, &'t [u8])>, AllocError>
    ensures { IfOk result (λ w. option_map inner.word_now w ≡ Some (spec.sign_of size text.now)) }
{
    let (sign, after) = text.split_at(size.min(text.len()));
    let word = LineWord {
        form: Form::Sign,
        text: Sequence::from_vec(Vec::from_slice(alloc, sign)?),
        has_call: false,
    };
    Ok(Some((word, after)))
}

/// The word at the front, and what stands after it. None stands at the end, at `#`, and at a word without its end.
fn word_at<'t>(
    alloc: Global,
    vars: &Values<'_>,
    text: &'t [u8],
) -> Result<Option<(LineWord, &'t [u8])>, AllocError>
    ensures { IfOk result (λ w. option_map inner.word_now w ≡ spec.word_at vars.now text.now) }
{
    let [byte, rest @ ..] = text else {
        return Ok(None);
    };
    if is_mark(*byte) {
        return quoted_word(alloc, vars, *byte, rest);
    }
    if is_word_byte(*byte) || begins_call(text) {
        return unquoted_word(alloc, vars, text);
    }
    if *byte == b'#' {
        return Ok(None);
    }
    if is_pair(text) {
        return sign(alloc, 2, text);
    }
    sign(alloc, 1, text)
}

/// The first word after blanks, and what stands after it.
pub fn first_word<'t>(
    alloc: Global,
    vars: &Values<'_>,
    line: &'t [u8],
) -> Result<Option<(LineWord, &'t [u8])>, AllocError>
    ensures { IfOk result (λ w. option_map inner.word_now w ≡ spec.first_word vars.now line.now) }
{
    word_at(alloc, vars, unblanked(line))
}
