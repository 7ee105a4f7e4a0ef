//! Quoted text.

ghost use Rattle.std.specs.Prelude.{◌≡◌, ◌==◌, ◌&&◌, not, ◌≤◌, false, length};
ghost use Rattle.ut_text.specs.Bytes.{backslash};
ghost use Rattle.cpp_directives.specs.Quotes as spec;

/// `"` or `'`.
pub fn is_quote(byte: u8) -> bool
    ensures { result ≡ spec.is_quote byte }
{
    byte == b'"' || byte == b'\''
}

/// Whether a byte ends quoted text.
fn closes(mark: u8, escape: bool, byte: u8) -> bool
    ensures { result ≡ (not escape && byte == mark) }
{
    !escape && byte == mark
}

/// Whether the next byte is taken as it is.
fn escapes(escape: bool, byte: u8) -> bool
    ensures { result ≡ (not escape && byte == backslash) }
{
    !escape && byte == b'\\'
}

/// How many bytes go on with quoted text, its mark included.
pub fn quoted_len(mark: u8, text: &[u8]) -> usize
    ensures value { result ≡ spec.quoted_len mark false text.now }
    ensures within { result ≤ length text.now }
{
    let mut escape = false;
    let mut count = 0;
    for byte in text {
        count += 1;
        if closes(mark, escape, *byte) {
            return count;
        }
        escape = escapes(escape, *byte);
    }
    count
}
