//! Where comments and quoted text begin and end.

ghost use Rattle.std.specs.Prelude.{◌≡◌, ◌==◌, ◌&&◌, ◌||◌, if◌then◌else◌};
ghost use Rattle.ut_text.specs.Bytes.{newline};
ghost use Rattle.cpp_read.specs.Characters.{backslash, slash, star};
ghost use Rattle.cpp_read.specs.Comments as spec;
ghost use Rattle.cpp_read.specs.Stops as stops;
ghost use Rattle.cpp_read.specs.declared.modes.Mode.TheVariants as modes;

/// Where in comments and quoted text a place is.
///
/// `Open` and `Close` stand before the second byte of `/*` and of `*/`, the escapes after a backslash.
#[derive(Clone, Copy)]
pub enum Mode {
    Code,
    Line,
    Open,
    Block,
    Close,
    Str,
    StrEscape,
    Char,
    CharEscape,
}

/// Whether a byte that begins nothing leaves the mode as it is.
pub fn is_steady(mode: Mode) -> bool
    ensures { result ≡ stops.is_steady mode }
{
    match mode {
        Mode::Code | Mode::Line | Mode::Block | Mode::Str | Mode::Char => true,
        Mode::Open | Mode::Close | Mode::StrEscape | Mode::CharEscape => false,
    }
}

/// Whether that byte is next.
fn is_next(byte: u8, ahead: Option<u8>) -> bool
    ensures { result ≡ spec.is_next byte ahead }
{
    match ahead {
        Some(next) => next == byte,
        None => false,
    }
}

/// Whether a comment begins there.
fn opens_comment(byte: u8, ahead: Option<u8>) -> bool
    ensures { result ≡ spec.opens_comment byte ahead }
{
    byte == b'/' && (is_next(b'*', ahead) || is_next(b'/', ahead))
}

/// What is kept of a byte in this mode.
pub fn kept_of(mode: Mode, byte: u8, ahead: Option<u8>) -> Option<u8>
    ensures { result ≡ spec.kept_of mode byte ahead }
{
    match mode {
        Mode::Code => if opens_comment(byte, ahead) {
            Some(b' ')
        } else {
            Some(byte)
        },
        Mode::Line => if byte == b'\n' { Some(byte) } else { None },
        Mode::Open | Mode::Block | Mode::Close => None,
        Mode::Str | Mode::StrEscape | Mode::Char | Mode::CharEscape => Some(byte),
    }
}

/// The mode after a byte.
pub fn mode_after(mode: Mode, byte: u8, ahead: Option<u8>) -> Mode
    ensures { result ≡ spec.mode_after mode byte ahead }
{
    match mode {
        Mode::Code => code_after(byte, ahead),
        Mode::Line => unless_newline(Mode::Line, byte),
        Mode::Open => Mode::Block,
        Mode::Block => if closes_comment(byte, ahead) {
            Mode::Close
        } else {
            Mode::Block
        },
        Mode::Close => Mode::Code,
        Mode::Str => quoted_after(b'"', Mode::Str, Mode::StrEscape, byte),
        Mode::StrEscape => unless_newline(Mode::Str, byte),
        Mode::Char => quoted_after(b'\'', Mode::Char, Mode::CharEscape, byte),
        Mode::CharEscape => unless_newline(Mode::Char, byte),
    }
}

/// The mode, which ends at a newline.
fn unless_newline(mode: Mode, byte: u8) -> Mode
    ensures { result ≡ (if byte == newline then modes.Code else mode) }
{
    if byte == b'\n' { Mode::Code } else { mode }
}

/// Whether a block comment ends there.
fn closes_comment(byte: u8, ahead: Option<u8>) -> bool
    ensures { result ≡ (byte == star && spec.is_next slash ahead) }
{
    byte == b'*' && is_next(b'/', ahead)
}

/// The mode after a byte of code.
fn code_after(byte: u8, ahead: Option<u8>) -> Mode
    ensures { result ≡ spec.code_after byte ahead }
{
    if byte == b'/' && is_next(b'*', ahead) {
        Mode::Open
    } else if byte == b'/' && is_next(b'/', ahead) {
        Mode::Line
    } else if byte == b'"' {
        Mode::Str
    } else if byte == b'\'' {
        Mode::Char
    } else {
        Mode::Code
    }
}

/// The mode after a byte of text in these quotes.
fn quoted_after(quote: u8, inside: Mode, escape: Mode, byte: u8) -> Mode
    ensures { result ≡ (if byte == backslash then escape else if byte == quote || byte == newline then modes.Code else inside) }
{
    if byte == b'\\' {
        escape
    } else if byte == quote || byte == b'\n' {
        Mode::Code
    } else {
        inside
    }
}
