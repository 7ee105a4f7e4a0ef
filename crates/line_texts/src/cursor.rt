ghost use Rattle.std.specs.Prelude.{◌≡◌, ◌≢◌, ◌++◌, ◌↔◌, ◌∷◌, [], IfNone, IfOk, IfSome, IsTrue, MatchOption, OnErr};
ghost use Rattle.std.specs.Bool.{OnFalse, OnTrue};
ghost use Rattle.line_texts.specs.Cursor.{IsNameThen, quoted, quoted_byte};
ghost use Rattle.ut_text.specs.Decimals.{IsNumberThen};

use std::alloc::{AllocError, Global};
use std::marker::Model;
use ut_text::{name_len, split_number};

/// The bytes of a line that are left to read, from the front.
///
/// A call that doesn't find what it asks for leaves them as they were. What a number, a name and a quoted text are is
/// this project's rule.
#[derive(Drop)]
pub struct Cursor<'a> {
    rest: &'a [u8],
}

impl<'a> Model for Cursor<'a> {
    ghost use Rattle.ut_text.specs.Bytes.{Bytes};

    ghost Value = { Bytes };

    ghost view = { λ c. c.rest.now };
}

impl<'a> Cursor<'a> {
    /// The bytes from their front on.
    pub fn new(bytes: &'a [u8]) -> Cursor<'a>
        ensures { result ≡ bytes.now }
    {
        Cursor { rest: bytes }
    }

    /// The bytes that are left.
    pub fn rest(&self) -> &'a [u8]
        ensures { result.now ≡ self.now }
    {
        self.rest
    }

    /// Whether no byte is left.
    pub fn is_at_end(&self) -> bool
        ensures { IsTrue result ↔ (self.now ≡ []) }
    {
        self.rest.is_empty()
    }

    /// Passes the word if it stands here.
    pub fn word(&mut self, word: &[u8]) -> bool
        ensures passed { OnTrue result (self.old ≡ word.now ++ self.new) }
        ensures other { OnFalse result ((rest : _) → self.old ≢ word.now ++ rest) }
        ensures stays { OnFalse result (self.new ≡ self.old) }
    {
        match self.rest.strip_prefix(word) {
            Some(rest) => {
                self.rest = rest;
                true
            }
            None => false,
        }
    }

    /// A number, up to the first byte that is no digit.
    pub fn number(&mut self) -> Option<u64>
        ensures found { IfSome result (λ n. IsNumberThen self.old n self.new) }
        ensures none { IfNone result ((n rest : _) → ¬ IsNumberThen self.old n rest) }
        ensures stays { IfNone result (self.new ≡ self.old) }
    {
        let (number, rest) = split_number(self.rest)?;
        self.rest = rest;
        Some(number)
    }

    /// A name, up to the first byte that is no letter, digit or `_`.
    pub fn name(&mut self) -> Option<&'a [u8]>
        ensures found { IfSome result (λ name. IsNameThen self.old name.now self.new) }
        ensures none { IfNone result ((name rest : _) → ¬ IsNameThen self.old name rest) }
        ensures stays { IfNone result (self.new ≡ self.old) }
    {
        let (name, rest) = self.rest.split_at(name_len(self.rest));
        if name.is_empty() {
            return None;
        }
        self.rest = rest;
        Some(name)
    }

    /// The text between two quotation marks, with `\"`, `\\` and `\t` read as the bytes that they stand for.
    ///
    /// No other backslash, and no tab, may stand between them. The only error is want of memory.
    pub fn quoted(&mut self, alloc: Global) -> Result<Option<Vec<u8>>, AllocError>
        ensures found { IfOk result (λ found. MatchOption found
            ((text rest : _) → self.old ≢ quoted text ++ rest) (λ text. self.old ≡ quoted text.items ++ self.new)) }
        ensures none { IfOk result (λ found. IfNone found (self.new ≡ self.old)) }
        ensures err { OnErr result (self.new ≡ self.old) }
    {
        let mut ahead = Cursor::new(self.rest);
        if !ahead.word(b"\"") {
            return Ok(None);
        }
        let mut text: Vec<u8> = Vec::new(alloc);
        while !ahead.word(b"\"") {
            let Some(byte) = ahead.quoted_byte() else {
                return Ok(None);
            };
            text.push(byte)?;
        }
        self.rest = ahead.rest;
        Ok(Some(text))
    }

    /// A byte inside quotation marks.
    fn quoted_byte(&mut self) -> Option<u8>
        ensures found { IfSome result (λ b. self.old ≡ quoted_byte b ++ self.new) }
        ensures none { IfNone result ((b rest : _) → self.old ≢ quoted_byte b ++ rest) }
    {
        if self.word(b"\\\"") {
            return Some(b'"');
        }
        if self.word(b"\\\\") {
            return Some(b'\\');
        }
        if self.word(b"\\t") {
            return Some(b'\t');
        }
        match self.rest {
            [byte, rest @ ..] if is_plain(*byte) => {
                self.rest = rest;
                Some(*byte)
            }
            _ => None,
        }
    }
}

/// Whether the byte stands for itself inside quotation marks.
fn is_plain(byte: u8) -> bool
    ensures { IsTrue result ↔ (quoted_byte byte ≡ byte ∷ []) }
{
    byte != b'"' && byte != b'\\' && byte != b'\t'
}
