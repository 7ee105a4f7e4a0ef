ghost use Rattle.std.specs.Prelude.{◌≡◌, ℕ, ◌≤◌, ◌<◌, ◌+◌, drop, false, length, MatchOption};
ghost use Rattle.cpp_directives.specs.Limits.{most_bytes};
ghost use Rattle.cpp_read.specs.Splices.{spliced_bytes, line_after};
ghost use Rattle.cpp_read.specs.Cursors as spec;
ghost use Rattle.cpp_read.specs.Cursors.{first, Takes, Stands, Passes};
ghost use Rattle.cpp_read.specs.Stops.{Skips};
ghost use Rattle.cpp_read.specs.Stops as stops;

use std::marker::Model;

/// A byte, the number of its physical line, and the place directly after it, where places count from 0.
#[derive(Clone, Copy)]
pub struct PlacedByte {
    pub byte: u8,
    pub line: u32,
    pub end: u32,
}

/// A place in a text that begins no splice. Its value is the bytes that are still to be read.
#[derive(Drop)]
pub struct Cursor<'a> {
    bytes: &'a [u8],
    at: usize,
    line: u32,
}

impl<'a> Model for Cursor<'a> {
    ghost use Rattle.std.specs.Prelude.{List, drop, ◌≡◌, false};
    ghost use Rattle.cpp_read.specs.declared.cursor.PlacedByte.{PlacedByte};
    ghost use Rattle.cpp_directives.specs.Limits.{most_bytes};
    ghost use Rattle.cpp_read.specs.Splices.{spliced_bytes};
    ghost use Rattle.cpp_read.specs.Cursors.{begins_splice, Stands};

    ghost Value = { List PlacedByte };

    ghost view = { λ c. spliced_bytes c.at c.line (drop c.at c.bytes.now) };

    ghost invariant = { λ c. Stands c.bytes.now c.at c.line × (begins_splice (drop c.at c.bytes.now) ≡ false) };
}

impl<'a> Cursor<'a> {
    /// The cursor before the first byte, on line 1.
    pub fn new(bytes: &'a [u8]) -> Cursor<'a>
        requires { length bytes.now ≤ most_bytes }
        ensures { result ≡ spliced_bytes 0 1 bytes.now }
    {
        let (at, line) = past_splices(bytes, 0, 1);
        Cursor { bytes, at, line }
    }

    /// The next byte.
    pub fn peek(&self) -> Option<u8>
        ensures { result ≡ first self.now }
    {
        if self.at < self.bytes.len() {
            Some(self.bytes[self.at])
        } else {
            None
        }
    }

    /// Takes the next byte.
    pub fn next(&mut self) -> Option<PlacedByte>
        ensures { Takes self.old result self.new }
    {
        if self.at < self.bytes.len() {
            let byte = self.bytes[self.at];
            let placed = PlacedByte {
                byte,
                line: self.line,
                end: self.at as u32 + 1,
            };
            let (at, line) = past_splices(self.bytes, self.at + 1, next_line(self.line, byte));
            self.at = at;
            self.line = line;
            Some(placed)
        } else {
            None
        }
    }

    /// Passes bytes that change no mode and end no line.
    pub fn skip_to_stop(&mut self)
        ensures { Skips self.old self.new }
    {
        let at = next_stop(self.bytes, self.at);
        let (at, line) = past_splices(self.bytes, at, self.line);
        self.at = at;
        self.line = line;
    }
}

/// Whether a byte may begin a splice, change the mode or end a line.
fn is_stop(byte: u8) -> bool
    ensures { result ≡ stops.is_stop byte }
{
    byte == b'\\'
        || byte == b'\n'
        || byte == b'\r'
        || byte == b'/'
        || byte == b'*'
        || byte == b'"'
        || byte == b'\''
}

/// The first place from `at` on where such a byte stands, or the end.
fn next_stop(bytes: &[u8], mut at: usize) -> usize
    requires { at ≤ length bytes.now }
    ensures skips { (line : ℕ) → Skips (spliced_bytes at line (drop at bytes.now)) (spliced_bytes result line (drop result bytes.now)) }
    ensures from { at ≤ result }
    ensures within { result ≤ length bytes.now }
{
    while at < bytes.len() && !is_stop(bytes[at]) {
        at += 1;
    }
    at
}

/// The line of the byte after this one.
fn next_line(line: u32, byte: u8) -> u32
    requires { line < 4294967295 }
    ensures { result ≡ line_after line byte }
{
    if byte == b'\n' { line + 1 } else { line }
}

/// Whether a carriage return directly before a newline stands there.
fn at_return(bytes: &[u8], at: usize) -> bool
    requires { at ≤ length bytes.now }
    ensures { result ≡ spec.begins_return (drop at bytes.now) }
{
    match &bytes[at..] {
        [b'\r', b'\n', ..] => true,
        _ => false,
    }
}

/// Whether a backslash directly before a newline stands there.
fn at_join(bytes: &[u8], at: usize) -> bool
    requires { at ≤ length bytes.now }
    ensures { result ≡ spec.begins_join (drop at bytes.now) }
{
    match &bytes[at..] {
        [b'\\', b'\n', ..] => true,
        _ => false,
    }
}

/// Whether a backslash stands there before a carriage return that belongs to a newline.
fn at_return_join(bytes: &[u8], at: usize) -> bool
    requires { at ≤ length bytes.now }
    ensures { result ≡ spec.begins_return_join (drop at bytes.now) }
{
    match &bytes[at..] {
        [b'\\', b'\r', b'\n', ..] => true,
        _ => false,
    }
}

/// The place and line after a splice, or after the carriage return of a line end.
fn past_one(bytes: &[u8], at: usize, line: u32) -> Option<(usize, u32)>
    requires { Stands bytes.now at line }
    ensures { MatchOption result (spec.begins_splice (drop at bytes.now) ≡ false) (λ r. Passes bytes.now at line r.0 r.1) }
{
    if at_return(bytes, at) {
        return Some((at + 1, line));
    }
    if at_join(bytes, at) {
        return Some((at + 2, line + 1));
    }
    if at_return_join(bytes, at) {
        return Some((at + 3, line + 1));
    }
    None
}

/// The place and line after all splices that stand there.
fn past_splices(bytes: &[u8], mut at: usize, mut line: u32) -> (usize, u32)
    requires { Stands bytes.now at line }
    ensures same { spliced_bytes result.0 result.1 (drop result.0 bytes.now) ≡ spliced_bytes at line (drop at bytes.now) }
    ensures stands { Stands bytes.now result.0 result.1 }
    ensures clear { spec.begins_splice (drop result.0 bytes.now) ≡ false }
{
    while let Some((next, number)) = past_one(bytes, at, line) {
        at = next;
        line = number;
    }
    (at, line)
}
