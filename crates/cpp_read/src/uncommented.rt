ghost use Rattle.std.specs.Prelude.{◌≡◌, ℕ, [], ◌∷◌, ◌++◌, ◌≤◌, length, OnOk, IfOk};
ghost use Rattle.cpp_directives.specs.Limits.{most_bytes};
ghost use Rattle.cpp_read.specs.Splices.{spliced_bytes};
ghost use Rattle.cpp_read.specs.Comments.{uncommented};
ghost use Rattle.cpp_read.specs.LogicalLines.{bytes_of, ends_of, marked};
ghost use Rattle.cpp_read.specs.LineSteps.{line_of, after_line, newline_end, found_lines, found_end, Moves};
ghost use Rattle.cpp_read.specs.Cursors.{Takes};
ghost use Rattle.cpp_read.specs.declared.modes.Mode.TheVariants as modes;

use crate::cursor::{Cursor, PlacedByte};
use crate::modes::{Mode, is_steady, kept_of, mode_after};
use crate::words::is_white;
use std::alloc::{AllocError, Global};
use std::marker::Model;

/// What a line is: none, since the text has ended; no directive's; or that of the sign on this physical line.
/// A line that a newline ends has the place after it.
#[derive(Clone, Copy)]
pub enum Found {
    End,
    Other { end: Option<u32> },
    Sign { line: u32, end: Option<u32> },
}

/// What stands after a sign in its line: the bytes, and the place directly after each of them.
#[derive(Drop)]
pub struct LineText {
    pub bytes: Vec<u8>,
    pub ends: Vec<u32>,
}

impl LineText {
    /// No byte.
    pub fn new(alloc: Global) -> LineText
        ensures bytes { result.bytes.items ≡ [] }
        ensures ends { result.ends.items ≡ [] }
    {
        LineText {
            bytes: Vec::new(alloc),
            ends: Vec::new(alloc),
        }
    }

    /// Lets all bytes go.
    fn clear(&mut self)
        ensures bytes { self.new.bytes.items ≡ [] }
        ensures ends { self.new.ends.items ≡ [] }
    {
        self.bytes.clear();
        self.ends.clear();
    }

    /// Adds a byte.
    fn push(&mut self, placed: PlacedByte) -> Result<(), AllocError>
        ensures bytes { OnOk result (self.new.bytes.items ≡ self.old.bytes.items ++ placed.byte ∷ []) }
        ensures ends { OnOk result (self.new.ends.items ≡ self.old.ends.items ++ placed.end ∷ []) }
    {
        self.bytes.push(placed.byte)?;
        self.ends.push(placed.end)?;
        Ok(())
    }
}

/// A place in a text without splices and comments. Its value is what is still to be read.
#[derive(Drop)]
pub struct Uncommented<'a> {
    cursor: Cursor<'a>,
    mode: Mode,
}

impl<'a> Model for Uncommented<'a> {
    ghost use Rattle.std.specs.Prelude.{List};
    ghost use Rattle.cpp_read.specs.declared.cursor.PlacedByte.{PlacedByte};
    ghost use Rattle.cpp_read.specs.Comments.{uncommented};

    ghost Value = { List PlacedByte };

    ghost view = { λ p. uncommented p.mode p.cursor };
}

impl<'a> Uncommented<'a> {
    /// The reader at the front of a text.
    pub fn new(bytes: &'a [u8]) -> Uncommented<'a>
        requires { length bytes.now ≤ most_bytes }
        ensures { result ≡ uncommented modes.Code (spliced_bytes 0 1 bytes.now) }
    {
        Uncommented {
            cursor: Cursor::new(bytes),
            mode: Mode::Code,
        }
    }

    /// Takes the next byte that is in no comment; of a comment one space is left.
    pub fn next(&mut self) -> Option<PlacedByte>
        ensures { Takes self.old result self.new }
    {
        while let Some(placed) = self.cursor.next() {
            let ahead = self.cursor.peek();
            let kept = kept_of(self.mode, placed.byte, ahead);
            self.mode = mode_after(self.mode, placed.byte, ahead);
            if let Some(byte) = kept {
                return Some(PlacedByte {
                    byte,
                    line: placed.line,
                    end: placed.end,
                });
            }
        }
        None
    }

    /// Passes the rest of a line, with its comments and quoted text; the place after its newline, if it has one.
    pub fn skip_line(&mut self) -> Option<u32>
        ensures after { self.new ≡ after_line self.old }
        ensures end { result ≡ newline_end self.old }
    {
        self.skip_to_stop();
        while let Some(placed) = self.next() {
            if placed.byte == b'\n' {
                return Some(placed.end);
            }
            self.skip_to_stop();
        }
        None
    }

    /// Passes bytes that end no line.
    fn skip_to_stop(&mut self)
        ensures same { after_line self.new ≡ after_line self.old }
        ensures ends { newline_end self.new ≡ newline_end self.old }
        ensures shorter { length self.new ≤ length self.old }
    {
        if is_steady(self.mode) {
            self.cursor.skip_to_stop();
        }
    }

    /// Puts the rest of the line at the end of `text`; the place after its newline, if it has one.
    fn take_line(&mut self, text: &mut LineText) -> Result<Option<u32>, AllocError>
        ensures text { OnOk result (text.new.bytes.items ≡ text.old.bytes.items ++ bytes_of (line_of self.old)) }
        ensures ends { OnOk result (text.new.ends.items ≡ text.old.ends.items ++ ends_of (line_of self.old)) }
        ensures after { OnOk result (self.new ≡ after_line self.old) }
        ensures end { IfOk result (λ end. end ≡ newline_end self.old) }
    {
        while let Some(placed) = self.next() {
            if placed.byte == b'\n' {
                return Ok(Some(placed.end));
            }
            text.push(placed)?;
        }
        Ok(None)
    }

    /// Passes the line. If it is a directive's, `text` is then what stands after its sign.
    pub fn line(&mut self, text: &mut LineText) -> Result<Found, AllocError>
        ensures found { IfOk result (λ f. (start end : ℕ) → marked start end (line_of self.old) ≡ found_lines start end f text.new.bytes.items text.new.ends.items) }
        ensures after { OnOk result (self.new ≡ after_line self.old) }
        ensures end { IfOk result (λ f. found_end f ≡ newline_end self.old) }
        ensures moves { IfOk result (λ f. Moves f self.old self.new) }
    {
        text.clear();
        let Some(placed) = self.next() else {
            return Ok(Found::End);
        };
        self.line_from(placed, text)
    }

    /// Takes the line that begins with this byte, if its first token is the sign.
    fn line_from(&mut self, first: PlacedByte, text: &mut LineText) -> Result<Found, AllocError>
        requires bytes { text.old.bytes.items ≡ [] }
        requires ends { text.old.ends.items ≡ [] }
        ensures found { IfOk result (λ f. (start end : ℕ) → marked start end (line_of (first ∷ self.old)) ≡ found_lines start end f text.new.bytes.items text.new.ends.items) }
        ensures after { OnOk result (self.new ≡ after_line (first ∷ self.old)) }
        ensures end { IfOk result (λ f. found_end f ≡ newline_end (first ∷ self.old)) }
        ensures moves { IfOk result (λ f. Moves f (first ∷ self.old) self.new) }
    {
        let mut placed = first;
        while is_white(placed.byte) {
            let Some(next) = self.next() else {
                return Ok(Found::Other { end: None });
            };
            placed = next;
        }
        if placed.byte == b'\n' {
            return Ok(Found::Other {
                end: Some(placed.end),
            });
        }
        if placed.byte == b'#' {
            let end = self.take_line(text)?;
            return Ok(Found::Sign {
                line: placed.line,
                end,
            });
        }
        let end = self.skip_line();
        Ok(Found::Other { end })
    }
}
