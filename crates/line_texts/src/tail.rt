ghost use Rattle.std.specs.Prelude.{◌≡◌, ◌≢◌, ◌≤◌, ◌++◌, drop, false, length, take, true, IfNone, IfSome};
ghost use Rattle.std.specs.Bool.{OnFalse, OnTrue};
ghost use Rattle.std.specs.List.{list_all};
ghost use Rattle.ut_text.specs.ByteClasses as spec;
ghost use Rattle.line_texts.specs.Tail.{IsNumberAfter, ends_with_digit};

use std::marker::Model;
use ut_text::{is_digit, numeral};

/// The bytes of a line that are left to read, from the end.
///
/// A call that doesn't find what it asks for leaves them as they were. What a number is is this project's rule.
#[derive(Drop)]
pub struct Tail<'a> {
    rest: &'a [u8],
}

impl<'a> Model for Tail<'a> {
    ghost use Rattle.ut_text.specs.Bytes.{Bytes};

    ghost Value = { Bytes };

    ghost view = { λ t. t.rest.now };
}

impl<'a> Tail<'a> {
    /// The bytes from their end on.
    pub fn new(bytes: &'a [u8]) -> Tail<'a>
        ensures { result ≡ bytes.now }
    {
        Tail { rest: bytes }
    }

    /// The bytes that are left.
    pub fn rest(&self) -> &'a [u8]
        ensures { result.now ≡ self.now }
    {
        self.rest
    }

    /// Passes the word if the bytes end in it.
    pub fn word(&mut self, word: &[u8]) -> bool
        ensures passed { OnTrue result (self.old ≡ self.new ++ word.now) }
        ensures other { OnFalse result ((rest : _) → self.old ≢ rest ++ word.now) }
        ensures stays { OnFalse result (self.new ≡ self.old) }
    {
        match self.rest.strip_suffix(word) {
            Some(rest) => {
                self.rest = rest;
                true
            }
            None => false,
        }
    }

    /// A number, back to the last byte that is no digit.
    pub fn number(&mut self) -> Option<u64>
        ensures found { IfSome result (λ n. IsNumberAfter self.old n self.new) }
        ensures none { IfNone result ((n rest : _) → ¬ IsNumberAfter self.old n rest) }
        ensures stays { IfNone result (self.new ≡ self.old) }
    {
        let (rest, digits) = self.rest.split_at(start_of_digits(self.rest));
        let number = numeral(digits)?;
        self.rest = rest;
        Some(number)
    }
}

/// Where the digits at the end begin.
fn start_of_digits(text: &[u8]) -> usize
    ensures within { result ≤ length text.now }
    ensures digits { list_all spec.is_digit (drop result text.now) ≡ true }
    ensures before { ends_with_digit (take result text.now) ≡ false }
{
    let mut start = text.len();
    while start > 0 {
        if !is_digit(text[start - 1]) {
            return start;
        }
        start -= 1;
    }
    0
}
