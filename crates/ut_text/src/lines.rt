ghost use Rattle.std.specs.Prelude.{◌≡◌, ◌<◌, ◌≤◌, ◌∷◌, [], Some, take, drop, length};
ghost use Rattle.ut_text.specs.Bytes as byte;
ghost use Rattle.ut_text.specs.Lines.{lines_of};
ghost use Rattle.ut_text.specs.LineEnds as ends;
ghost use Rattle.memchr.specs.Find.{IsFirstByte, is_byte};

use memchr::memchr;

/// The number of bytes of the first line.
fn line_len(text: &[u8]) -> usize
    ensures value { result ≡ ends.line_len text.now }
    ensures within { result ≤ length text.now }
{
    match memchr(b'\n', text) {
        Some(newline) => line_len_before(text, newline),
        None => text.len(),
    }
}

/// The number of bytes of the line that this newline ends.
fn line_len_before(text: &[u8], newline: usize) -> usize
    requires { IsFirstByte (is_byte byte.newline) text.now (Some newline) }
    ensures value { result ≡ ends.line_len text.now }
    ensures within { result ≤ length text.now }
{
    if newline > 0 && text[newline - 1] == b'\r' {
        newline - 1
    } else {
        newline
    }
}

/// The text after the line end at the front.
fn after_end(text: &[u8]) -> &[u8]
    ensures { result.now ≡ ends.after_end text.now }
{
    match text {
        [b'\n', rest @ ..] => rest,
        [b'\r', b'\n', rest @ ..] => rest,
        _ => text,
    }
}

/// The number of bytes of the line end at the front.
fn end_size(text: &[u8]) -> usize
    ensures value { result ≡ ends.end_size text.now }
    ensures within { result ≤ length text.now }
{
    match text {
        [b'\n', ..] => 1,
        [b'\r', b'\n', ..] => 2,
        _ => 0,
    }
}

/// The number of bytes of the first line with its end.
pub fn line_size(text: &[u8]) -> usize
    requires { 0 < length text.now }
    ensures line { lines_of text.now ≡ take (ends.line_len text.now) text.now ∷ lines_of (drop result text.now) }
    ensures some { 0 < result }
    ensures within { result ≤ length text.now }
{
    let len = line_len(text);
    len + end_size(&text[len..])
}

/// The first line, without its end, and the text after it.
pub fn split_line(text: &[u8]) -> (&[u8], &[u8])
    requires { 0 < length text.now }
    ensures lines { lines_of text.now ≡ result.0.now ∷ lines_of result.1.now }
    ensures shorter { length result.1.now < length text.now }
    ensures within { length result.0.now ≤ length text.now }
{
    let (line, rest) = text.split_at(line_len(text));
    (line, after_end(rest))
}
