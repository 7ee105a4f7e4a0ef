ghost use Rattle.std.specs.Prelude.{◌≡◌, IfOk};
ghost use Rattle.std.specs.List.{list_all};
ghost use Rattle.ut_text.specs.ByteClasses as bytes;
ghost use Rattle.kconf_words.specs.Kinds as spec;

use crate::line_words::{Form, LineWord};
use std::alloc::{AllocError, Global};
use ut_logic::{Text, Trit};
use ut_text::{are_name_bytes, is_digit, is_hex_digit, is_name_byte};

/// Whether each byte is a digit.
fn digits_only(text: &[u8]) -> bool
    ensures { result ≡ list_all bytes.is_digit text.now }
{
    text.iter().all(|b| is_digit(*b))
}

/// Whether each byte is a hexadecimal digit.
fn hex_digits_only(text: &[u8]) -> bool
    ensures { result ≡ list_all bytes.is_hex_digit text.now }
{
    text.iter().all(|b| is_hex_digit(*b))
}

/// One digit or more, and nothing else.
fn are_digits(text: &[u8]) -> bool
    ensures { result ≡ spec.all_and_some bytes.is_digit text.now }
{
    match text {
        [] => false,
        [first, rest @ ..] => is_digit(*first) && digits_only(rest),
    }
}

/// One hexadecimal digit or more, and nothing else.
fn are_hex_digits(text: &[u8]) -> bool
    ensures { result ≡ spec.all_and_some bytes.is_hex_digit text.now }
{
    match text {
        [] => false,
        [first, rest @ ..] => is_hex_digit(*first) && hex_digits_only(rest),
    }
}

/// One byte of names or more, and nothing else.
fn are_some_name_bytes(text: &[u8]) -> bool
    ensures { result ≡ spec.all_and_some bytes.is_name_byte text.now }
{
    match text {
        [] => false,
        [first, rest @ ..] => is_name_byte(*first) && are_name_bytes(rest),
    }
}

/// Digits, with or without `-` before them, or `0x` and hexadecimal digits.
fn is_number(text: &[u8]) -> bool
    ensures { result ≡ spec.is_number text.now }
{
    are_digits(text)
        || (text.starts_with(b"-".as_slice()) && are_digits(&text[1..]))
        || (text.starts_with(b"0x".as_slice()) && are_hex_digits(&text[2..]))
}

/// The value of `y`, `m` or `n`.
fn constant(text: &[u8]) -> Option<Trit>
    ensures { result ≡ spec.constant text.now }
{
    match text {
        b"y" => Some(Trit::Y),
        b"m" => Some(Trit::M),
        b"n" => Some(Trit::N),
        _ => None,
    }
}

/// A word of letters, digits and `_` that is no number and no constant.
fn is_name_text(text: &[u8]) -> bool
    ensures { result ≡ spec.is_name_text text.now }
{
    are_some_name_bytes(text) && !is_number(text) && constant(text).is_none()
}

/// An unquoted word.
fn is_bare(form: Form) -> bool
    ensures { result ≡ spec.is_bare_form form }
{
    match form {
        Form::Bare => true,
        Form::Quoted => false,
        Form::Sign => false,
    }
}

/// The value of a constant, quoted or not.
pub fn constant_of(word: &LineWord) -> Option<Trit>
    ensures { result ≡ spec.constant_of word.now }
{
    constant(word.text.as_slice())
}

/// Whether the word is a name.
pub fn is_name(word: &LineWord) -> bool
    ensures { result ≡ spec.is_name word.now }
{
    is_bare(word.form) && is_name_text(word.text.as_slice())
}

/// Whether the word is a literal in which no macro call is left.
pub fn is_literal(word: &LineWord) -> bool
    ensures { result ≡ spec.is_literal word.now }
{
    is_bare(word.form)
        && !word.has_call
        && !is_name_text(word.text.as_slice())
        && constant(word.text.as_slice()).is_none()
}

/// The word as a text.
pub fn text_of(alloc: Global, word: &LineWord) -> Result<Text, AllocError>
    ensures { IfOk result (λ t. t ≡ spec.text_of word.now) }
{
    Text::of_bytes(alloc, word.text.as_slice())
}

/// Whether the word is this one, without quote marks.
pub fn is_word(word: &LineWord, text: &[u8]) -> bool
    ensures { result ≡ spec.is_word text.now word.now }
{
    is_bare(word.form) && word.text.as_slice() == text
}
