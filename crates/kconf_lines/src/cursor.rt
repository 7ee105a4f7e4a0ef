ghost use Rattle.std.specs.Prelude.{◌≡◌, ◌<◌, ◌++◌, ◌+◌, ◌≤◌, IfOk, OnOk, length};
ghost use Rattle.std.specs.Option.{option_map};
ghost use Rattle.ut_text.specs.Lines.{lines_of};
ghost use Rattle.kconf_lines.specs.Lines.{numbered};
ghost use Rattle.kconf_lines.specs.HelpTexts as help;
ghost use Rattle.kconf_lines.specs.LogicalLines as spec;
ghost use Rattle.kconf_lines.specs.Reading as inner;

use crate::help_texts::{belongs, indentation};
use std::alloc::{AllocError, Global};
use std::marker::Model;
use ut_text::split_line;

/// The bytes of a logical line: a part of the text, or several lines joined.
#[derive(Drop)]
pub enum LineText<'a> {
    Whole(&'a [u8]),
    Joined(Vec<u8>),
}

/// A logical line and the number of its first physical line.
#[derive(Drop)]
pub struct LogicalLine<'a> {
    pub number: u32,
    pub text: LineText<'a>,
}

/// A physical line and its number.
#[derive(Drop)]
struct PhysicalLine<'a> {
    number: u32,
    text: &'a [u8],
}

impl<'a> LogicalLine<'a> {
    /// The bytes of the line.
    pub fn bytes(&self) -> &[u8]
        ensures { result.now ≡ inner.text_bytes self.now.text }
    {
        match &self.text {
            LineText::Whole(text) => text,
            LineText::Joined(text) => text.as_slice(),
        }
    }
}

/// A place in a text. Its value is the physical lines that are left.
#[derive(Drop)]
pub struct LineCursor<'a> {
    rest: &'a [u8],
    line: u32,
}

impl<'a> Model for LineCursor<'a> {
    ghost use Rattle.std.specs.Prelude.{◌+◌, ◌≤◌, length, List};
    ghost use Rattle.ut_text.specs.Lines.{lines_of};
    ghost use Rattle.kconf_lines.specs.Lines.{Line, numbered};

    ghost Value = { List Line };

    ghost view = { λ c. numbered c.line (lines_of c.rest.now) };

    ghost invariant = { λ c. c.line + length c.rest.now ≤ 4294967295 };
}

/// Whether a line ends in a backslash.
#[tactic(auto, using(crate::proofs::LineLemmas::continued_is))]
fn is_continued(line: &[u8]) -> bool
    ensures { result ≡ spec.is_continued line.now }
{
    match line.last() {
        Some(byte) => *byte == b'\\',
        None => false,
    }
}

/// A line without the backslash at its end.
fn without_last(line: &[u8]) -> &[u8]
    requires { 0 < length line.now }
    ensures { result.now ≡ spec.front line.now }
{
    &line[..line.len() - 1]
}

impl<'a> LineCursor<'a> {
    /// The start of a text.
    pub fn new(bytes: &'a [u8]) -> LineCursor<'a>
        requires { length bytes.now < 4294967295 }
        ensures { result ≡ numbered 1 (lines_of bytes.now) }
    {
        LineCursor {
            rest: bytes,
            line: 1,
        }
    }

    /// Takes the first physical line.
    fn take(&mut self) -> Option<PhysicalLine<'a>>
        ensures { inner.TakesLine self.old (option_map inner.shown result) self.new }
    {
        if self.rest.is_empty() {
            return None;
        }
        let number = self.line;
        let (text, rest) = split_line(self.rest);
        self.rest = rest;
        self.line += 1;
        Some(PhysicalLine { number, text })
    }

    /// Takes the first logical line, and appends its bytes.
    #[tactic(auto, using(crate::proofs::LineLemmas::goes_on, crate::proofs::LineLemmas::is_whole))]
    fn join(&mut self, text: &mut Vec<u8>) -> Result<(), AllocError>
        ensures text { OnOk result (text.new.items ≡ text.old.items ++ (spec.joined_first self.old).0) }
        ensures left { OnOk result (self.new ≡ (spec.joined_first self.old).1) }
    {
        'lines: while let Some(line) = self.take() {
            if !is_continued(line.text) {
                text.extend_from_slice(line.text)?;
                return Ok(());
            }
            text.extend_from_slice(without_last(line.text))?;
        }
        Ok(())
    }

    /// The next logical line, which is copied only where it is several physical lines. None is left at the end.
    pub fn next_line(&mut self, alloc: Global) -> Result<Option<LogicalLine<'a>>, AllocError>
        ensures { IfOk result (λ o. inner.PassesLine self.old o self.new) }
    {
        let Some(line) = self.take() else {
            return Ok(None);
        };
        let number = line.number;
        if !is_continued(line.text) {
            return Ok(Some(LogicalLine {
                number,
                text: LineText::Whole(line.text),
            }));
        }
        let mut text = Vec::from_slice(alloc, without_last(line.text))?;
        self.join(&mut text)?;
        Ok(Some(LogicalLine {
            number,
            text: LineText::Joined(text),
        }))
    }

    /// Passes the first line where it belongs to the help text with this indentation.
    #[tactic(auto, using(crate::proofs::LineLemmas::passed_one, crate::proofs::LineLemmas::passed_none))]
    fn passes(&mut self, least: Option<usize>) -> bool
        ensures { inner.PassesBelonging least self.old result self.new }
    {
        if self.rest.is_empty() {
            return false;
        }
        let (line, rest) = split_line(self.rest);
        if !belongs(least, line) {
            return false;
        }
        self.rest = rest;
        self.line += 1;
        true
    }

    /// Passes the lines that belong to the help text with this indentation.
    fn skip(&mut self, least: Option<usize>)
        ensures { self.new ≡ inner.after_belonging least self.old }
    {
        'lines: while self.passes(least) {}
    }

    /// The indentation of the first line, 0 where none is left.
    fn indentation(&self) -> usize
        ensures { result ≡ inner.first_indentation self.now }
    {
        if self.rest.is_empty() {
            return 0;
        }
        let (line, _) = split_line(self.rest);
        indentation(line)
    }

    /// Passes the help text that stands here.
    #[tactic(auto, using(crate::proofs::LineLemmas::without_first))]
    pub fn skip_help(&mut self)
        ensures { self.new ≡ help.after_help self.old }
    {
        self.skip(None);
        let least = self.indentation();
        if least > 0 {
            self.skip(Some(least));
        }
    }
}
