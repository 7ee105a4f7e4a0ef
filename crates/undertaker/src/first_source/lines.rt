ghost use Rattle.std.specs.Prelude.{◌≡◌, ◌≤◌, ◌<◌, IsTrue, IfOk, true, length};
ghost use Rattle.std.specs.List.{list_any};
ghost use Rattle.undertaker.specs.FirstSource.Form as spec;

use cpp_directives::Cond;
use sqlite_items::Boxed;
use std::alloc::{AllocError, Global};
use ut_logic::Text;
use ut_text::{are_name_bytes, begins_names};

/// What a line of the first form says.
#[derive(Drop)]
pub enum FirstLine {
    Opens(Cond),
    Closes,
    Plain,
    Other,
}

/// Whether a text is a C name.
fn is_name(text: &[u8]) -> bool
    ensures { result ≡ spec.is_name text.now }
{
    match text {
        [first, rest @ ..] => begins_names(*first) && are_name_bytes(rest),
        [] => false,
    }
}

/// `#`, `\`, `"`, `'` or `/`: with such a byte a line may be more than it seems. Digraphs are not followed.
fn is_special(byte: u8) -> bool
    ensures { result ≡ spec.is_special byte }
{
    byte == b'#' || byte == b'\\' || byte == b'"' || byte == b'\'' || byte == b'/'
}

/// Whether a line has such a byte.
fn holds_special(line: &[u8]) -> bool
    ensures { result ≡ list_any spec.is_special line.now }
{
    line.iter().any(|b| is_special(*b))
}

/// Whether a line begins with the word and one space.
fn asks(word: &[u8], line: &[u8]) -> bool
    ensures { result ≡ spec.asks word.now line.now }
{
    line.starts_with(word) && is_name(&line[word.len()..])
}

/// The text of a name.
fn name_text(alloc: Global, name: &[u8]) -> Result<Text, AllocError>
    requires { spec.is_name name.now ≡ true }
    ensures { IfOk result (λ t. t ≡ name.now) }
{
    Text::of_bytes(alloc, name)
}

/// What a line says.
pub fn first_line(alloc: Global, line: &[u8]) -> Result<FirstLine, AllocError>
    ensures { IfOk result (λ f. f ≡ spec.first_line line.now) }
{
    if asks(b"#ifdef ".as_slice(), line) {
        let name = name_text(alloc, &line[7..])?;
        return Ok(FirstLine::Opens(Cond::Defined(name)));
    }
    if asks(b"#ifndef ".as_slice(), line) {
        let name = name_text(alloc, &line[8..])?;
        let defined = Boxed::new(alloc, Cond::Defined(name))?;
        return Ok(FirstLine::Opens(Cond::Neg(defined)));
    }
    Ok(other_line(line))
}

/// A line that opens nothing: `#endif`, one without such a byte, or none of the form.
fn other_line(line: &[u8]) -> FirstLine
    ensures { result ≡ spec.other_line line.now }
{
    if line == b"#endif".as_slice() {
        FirstLine::Closes
    } else if holds_special(line) {
        FirstLine::Other
    } else {
        FirstLine::Plain
    }
}
