ghost use Rattle.std.specs.Prelude.{◌≡◌, ℕ, IfOk, MatchOption};
ghost use Rattle.ut_text.specs.ByteClasses.{is_name_byte};
ghost use Rattle.ut_words.specs.Lists as spec;
ghost use Rattle.ut_words.specs.Lists.{IsLineOf, IsPlace, IsSymbolLine, is_file};
ghost use Rattle.ut_words.specs.Reading.{some_if};
ghost use Rattle.ut_words.specs.Values.{all_and_some};

use crate::wishes::{ListKind, ListWish};
use line_texts::{Cursor, Tail};
use std::alloc::{AllocError, Global};
use std::str;
use ut_base::Name;
use ut_logic::Text;
use ut_text::are_name_bytes;

/// Whether a line is empty, or begins with `#`.
pub fn is_skipped(line: &[u8]) -> bool
    ensures { result ≡ spec.is_skipped line.now }
{
    line.is_empty() || line.starts_with(b"#")
}

/// The wish of a line of a list of this kind, if it has one. The only error is want of memory.
pub fn wish_of(alloc: Global, kind: ListKind, line: &[u8]) -> Result<Option<ListWish>, AllocError>
    ensures { IfOk result (λ found. MatchOption found ((w : _) → ¬ IsLineOf kind line.now w) (IsLineOf kind line.now)) }
{
    match kind {
        ListKind::White => white_wish(alloc, line),
        ListKind::Black => black_wish(alloc, line),
        ListKind::Trace => traced_wish(alloc, line),
    }
}

fn white_wish(alloc: Global, line: &[u8]) -> Result<Option<ListWish>, AllocError>
    ensures { IfOk result (λ found. MatchOption found ((w : _) → ¬ IsLineOf ListKind.White line.now w) (IsLineOf ListKind.White line.now)) }
{
    let Some(name) = symbol_of(alloc, line)? else {
        return Ok(None);
    };
    Ok(Some(ListWish::On(name)))
}

fn black_wish(alloc: Global, line: &[u8]) -> Result<Option<ListWish>, AllocError>
    ensures { IfOk result (λ found. MatchOption found ((w : _) → ¬ IsLineOf ListKind.Black line.now w) (IsLineOf ListKind.Black line.now)) }
{
    let Some(name) = symbol_of(alloc, line)? else {
        return Ok(None);
    };
    Ok(Some(ListWish::Off(name)))
}

fn traced_wish(alloc: Global, line: &[u8]) -> Result<Option<ListWish>, AllocError>
    ensures { IfOk result (λ found. MatchOption found ((w : _) → ¬ IsLineOf ListKind.Trace line.now w) (IsLineOf ListKind.Trace line.now)) }
{
    let Some((file, number)) = split_place(line) else {
        return Ok(None);
    };
    let Some(file) = file_of(alloc, file)? else {
        return Ok(None);
    };
    Ok(Some(ListWish::Traced { file, line: number }))
}

// The symbol of a line of a white or black list.
fn symbol_of(alloc: Global, line: &[u8]) -> Result<Option<Text>, AllocError>
    ensures { IfOk result (λ found. MatchOption found ((name : _) → ¬ IsSymbolLine line.now name) (IsSymbolLine line.now)) }
{
    let mut cursor = Cursor::new(line);
    if !cursor.word(b"CONFIG_") {
        return Ok(None);
    }
    let name = cursor.rest();
    if !is_symbol(name) {
        return Ok(None);
    }
    Ok(Some(Text::of_name(alloc, name)?))
}

// One letter, digit or `_` or more, and no other byte.
fn is_symbol(name: &[u8]) -> bool
    ensures { result ≡ all_and_some is_name_byte name.now }
{
    !name.is_empty() && are_name_bytes(name)
}

// What stands before the last colon, and the line after it.
fn split_place(line: &[u8]) -> Option<(&[u8], u32)>
    ensures { MatchOption result ((file : _) (number : ℕ) → ¬ IsPlace line.now file number)
        (λ place. IsPlace line.now place.0.now place.1) }
{
    let mut tail = Tail::new(line);
    let number = tail.number()?;
    if number == 0 || number > 999_999_999 {
        return None;
    }
    if !tail.word(b":") {
        return None;
    }
    Some((tail.rest(), number as u32))
}

// The name of a file that these bytes are, if they are one.
fn file_of(alloc: Global, bytes: &[u8]) -> Result<Option<Name>, AllocError>
    ensures { IfOk result (λ found. found ≡ some_if (is_file bytes.now) bytes.now) }
{
    match str::from_utf8(bytes) {
        Ok(text) => Name::new(alloc, text),
        Err(_) => Ok(None),
    }
}
