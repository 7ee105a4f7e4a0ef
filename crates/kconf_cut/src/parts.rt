ghost use Rattle.std.specs.Prelude.{◌≡◌, ◌≤◌, length};
ghost use Rattle.std.specs.Option.{option_map};
ghost use Rattle.std.specs.List.{prefix_len};
ghost use Rattle.kconf_cut.specs.Words as spec;
ghost use Rattle.kconf_cut.specs.Reading as inner;

use crate::calls::{after_two, begins_call, split_closed};
use ut_text::is_name_byte;

/// What the parts of a word are.
#[derive(Clone, Copy)]
pub enum Run {
    /// Bytes of words and macro calls.
    Unquoted,
    /// Everything up to this mark.
    QuotedBy(u8),
}

/// A part of a word: a macro call, by what it calls, or a byte.
#[derive(Drop)]
pub enum PartText<'a> {
    Call(&'a [u8]),
    Byte(u8),
}

/// A letter, a digit or one of `_ - . /`.
pub fn is_word_byte(byte: u8) -> bool
    ensures { result ≡ spec.is_word_byte byte }
{
    is_name_byte(byte) || byte == b'-' || byte == b'.' || byte == b'/'
}

/// What is called after `$(` at the front, and what stands after the call, where it is closed.
fn first_call(text: &[u8]) -> Option<(PartText<'_>, &[u8])>
    ensures { option_map inner.part_at result ≡ spec.first_call text.now }
{
    let (name, rest) = split_closed(after_two(text))?;
    Some((PartText::Call(name), rest))
}

/// The first part of an unquoted word, and what stands after it.
fn first_unquoted(text: &[u8]) -> Option<(PartText<'_>, &[u8])>
    ensures { option_map inner.part_at result ≡ spec.unquoted text.now }
{
    let [byte, rest @ ..] = text else {
        return None;
    };
    if begins_call(text) {
        return first_call(text);
    }
    if is_word_byte(*byte) {
        return Some((PartText::Byte(*byte), rest));
    }
    None
}

/// The byte after a backslash, and what stands after it.
fn as_it_is(text: &[u8]) -> Option<(PartText<'_>, &[u8])>
    ensures { option_map inner.part_at result ≡ spec.as_it_is text.now }
{
    match text {
        [byte, rest @ ..] => Some((PartText::Byte(*byte), rest)),
        [] => None,
    }
}

/// The first part of a quoted word, and what stands after it.
fn first_quoted(mark: u8, text: &[u8]) -> Option<(PartText<'_>, &[u8])>
    ensures { option_map inner.part_at result ≡ spec.quoted mark text.now }
{
    let [byte, rest @ ..] = text else {
        return None;
    };
    if *byte == mark {
        return None;
    }
    if begins_call(text) {
        return first_call(text);
    }
    if *byte == b'\\' {
        return as_it_is(rest);
    }
    Some((PartText::Byte(*byte), rest))
}

/// The first part of a word, and what stands after it.
pub fn first_part(run: Run, text: &[u8]) -> Option<(PartText<'_>, &[u8])>
    ensures { option_map inner.part_at result ≡ inner.parts_of run text.now }
{
    match run {
        Run::Unquoted => first_unquoted(text),
        Run::QuotedBy(mark) => first_quoted(mark, text),
    }
}

/// Whether a byte is a part of the word by itself, whatever stands after it.
fn is_plain(run: Run, byte: u8) -> bool
    ensures { result ≡ inner.is_plain run byte }
{
    match run {
        Run::Unquoted => is_word_byte(byte),
        Run::QuotedBy(mark) => byte != mark && byte != b'$' && byte != b'\\',
    }
}

/// How many bytes at the front are parts by themselves.
pub fn plain_len(run: Run, text: &[u8]) -> usize
    ensures value { result ≡ prefix_len (inner.is_plain run) text.now }
    ensures within { result ≤ length text.now }
{
    let mut count = 0;
    for byte in text {
        if !is_plain(run, *byte) {
            return count;
        }
        count += 1;
    }
    count
}
