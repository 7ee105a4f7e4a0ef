ghost use Rattle.std.specs.Prelude.{◌≡◌, ◌<◌, ◌≤◌, ◌∷◌, ◌++◌, [], IfNone, IfSome, OnOk, drop, length, map};
ghost use Rattle.std.specs.List.{prefix_len};
ghost use Rattle.kbuild_text.specs.Marks.{bytes_of};
ghost use Rattle.kbuild_text.specs.Words as spec;

use crate::marks::{Mark, push_bytes};
use std::alloc::AllocError;
use ut_text::is_blank;

/// A space or a tab outside of macro calls.
fn separates(mark: Mark) -> bool
    ensures { result ≡ spec.separates mark }
{
    !mark.in_call && is_blank(mark.byte)
}

/// The number of separators at the front.
fn separators(line: &[Mark]) -> usize
    ensures value { result ≡ prefix_len spec.separates line.now }
    ensures within { result ≤ length line.now }
{
    let mut count = 0;
    for mark in line {
        if !separates(*mark) {
            return count;
        }
        count += 1;
    }
    count
}

/// The number of marks before the first separator.
fn word_len(line: &[Mark]) -> usize
    ensures value { result ≡ prefix_len spec.is_of_word line.now }
    ensures within { result ≤ length line.now }
{
    let mut count = 0;
    for mark in line {
        if separates(*mark) {
            return count;
        }
        count += 1;
    }
    count
}

/// The line from its first word on.
fn from_word(line: &[Mark]) -> &[Mark]
    ensures value { result.now ≡ drop (prefix_len spec.separates line.now) line.now }
    ensures within { length result.now ≤ length line.now }
{
    &line[separators(line)..]
}

/// The first word of a line and the line after it.
pub fn split_word(line: &[Mark]) -> Option<(&[Mark], &[Mark])>
    ensures some { IfSome result (λ split. spec.words_of line.now ≡ split.0.now ∷ spec.words_of split.1.now) }
    ensures shorter { IfSome result (λ split. length split.1.now < length line.now) }
    ensures none { IfNone result (spec.words_of line.now ≡ []) }
{
    let words = from_word(line);
    if words.is_empty() {
        return None;
    }
    Some(words.split_at(word_len(words)))
}

/// The only word of a line, where it has just one.
pub fn only_word(line: &[Mark]) -> Option<&[Mark]>
    ensures some { IfSome result (λ word. spec.words_of line.now ≡ word.now ∷ []) }
    ensures none { IfNone result (spec.only (spec.words_of line.now) ≡ spec.none) }
{
    let (word, rest) = split_word(line)?;
    match split_word(rest) {
        Some(_) => None,
        None => Some(word),
    }
}

/// The words of a line, each after a space, after the bytes that are there.
pub fn push_words(line: &[Mark], text: &mut Vec<u8>) -> Result<(), AllocError>
    ensures { OnOk result (text.new.items ≡ text.old.items ++ spec.spaced (map bytes_of (spec.words_of line.now))) }
{
    let mut rest = line;
    while let Some((word, after)) = split_word(rest) {
        text.push(b' ')?;
        push_bytes(word, text)?;
        rest = after;
    }
    Ok(())
}
