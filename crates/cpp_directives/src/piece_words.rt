//! The names in the text of an opaque piece.

ghost use Rattle.std.specs.Prelude.{◌≡◌, ◌≤◌, ◌<◌, ◌==◌, ◌++◌, not, true, [], length, IfOk, IfSome, MatchOption};
ghost use Rattle.std.specs.List.{list_all, prefix_len};
ghost use Rattle.ut_text.specs.Bytes.{space};
ghost use Rattle.ut_text.specs.ByteClasses as classes;
ghost use Rattle.cpp_directives.specs.PieceNames as spec;

use crate::quotes::{is_quote, quoted_len};
use std::alloc::{AllocError, Global};
use ut_text::{Text, begins_names, is_digit, name_len};

/// How many bytes stand before the first space.
fn word_len(text: &[u8]) -> usize
    ensures value { result ≡ prefix_len (λ b. not (b == space)) text.now }
    ensures within { result ≤ length text.now }
{
    let mut count = 0;
    for byte in text {
        if *byte == b' ' {
            return count;
        }
        count += 1;
    }
    count
}

/// How many bytes go with the first of a word.
fn more_of(first: u8, after: &[u8]) -> usize
    ensures value { result ≡ spec.more_of first after.now }
    ensures within { result ≤ length after.now }
{
    if begins_names(first) {
        name_len(after)
    } else if is_quote(first) {
        quoted_len(first, after)
    } else if is_digit(first) || first == b'\\' {
        word_len(after)
    } else {
        0
    }
}

/// How many bytes the first word has.
fn first_len(text: &[u8]) -> usize
    ensures value { result ≡ spec.first_len text.now }
    ensures within { result ≤ length text.now }
{
    match text {
        [first, after @ ..] => 1 + more_of(*first, after),
        [] => 0,
    }
}

/// The first word, and what stands after it.
fn next_word(text: &[u8]) -> Option<(&[u8], &[u8])>
    ensures names { MatchOption result (text.now ≡ []) (λ r. spec.names_of_piece text.now ≡ spec.named r.0.now ++ spec.names_of_piece r.1.now) }
    ensures shorter { IfSome result (λ r. length r.1.now < length text.now) }
    ensures plain { IfSome result (λ r. spec.begins_name r.0.now ≡ true → list_all classes.is_name_byte r.0.now ≡ true) }
{
    if text.is_empty() {
        return None;
    }
    Some(text.split_at(first_len(text)))
}

/// Whether a word is a name.
fn begins_name(word: &[u8]) -> bool
    ensures { result ≡ spec.begins_name word.now }
{
    match word {
        [first, ..] => begins_names(*first),
        [] => false,
    }
}

/// The names of a piece, in order.
pub fn piece_names(alloc: Global, text: &[u8]) -> Result<Vec<Text>, AllocError>
    ensures { IfOk result (λ v. v.items ≡ spec.names_of_piece text.now) }
{
    let mut found = Vec::new(alloc);
    let mut rest = text;
    while let Some((word, more)) = next_word(rest) {
        if begins_name(word) {
            found.push(Text::of_name(alloc, word)?)?;
        }
        rest = more;
    }
    Ok(found)
}
