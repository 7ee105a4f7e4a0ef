ghost use Rattle.std.specs.Prelude.{◌≡◌, ◌-◌, get_or};
ghost use Rattle.cpp_read.specs.Directives as spec;
ghost use Rattle.cpp_read.specs.SpanSteps.{marked_at};

use crate::uncommented::LineText;
use crate::words::{after_white, split_name, white_len};

/// The places of a conditional directive's logical line, its newline with it, and of its name, in a text. `line` is
/// the physical line of its `#`. Places count from 0, and each end is the place directly after the last byte.
#[derive(Clone, Copy, Debug, PartialEq, Eq)]
pub struct LineOf {
    pub line: u32,
    pub start: u32,
    pub end: u32,
    pub word: u32,
    pub word_end: u32,
}

/// The place after the byte with this number.
fn end_at(ends: &[u32], number: usize) -> u32
    ensures { result ≡ get_or ends.now number 0 }
{
    match ends.get(number) {
        Some(end) => *end,
        None => 0,
    }
}

/// The places of the line with this text, whose sign stands on this physical line.
pub fn span_of(start: u32, end: u32, line: u32, text: &LineText) -> LineOf
    ensures { result ≡ spec.span_of (marked_at start end line text.now) }
{
    let before = white_len(&text.bytes);
    let (name, _) = split_name(after_white(&text.bytes));
    let stop = before.saturating_add(name.len());
    LineOf {
        line,
        start,
        end,
        word: end_at(&text.ends, before).saturating_sub(1),
        word_end: end_at(&text.ends, stop.saturating_sub(1)),
    }
}
