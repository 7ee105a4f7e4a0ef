ghost use Rattle.std.specs.Prelude.{◌≡◌};
ghost use Rattle.std.specs.List.{list_all};
ghost use Rattle.ut_text.specs.ByteClasses as spec;

/// A letter from A to Z.
pub fn is_capital(byte: u8) -> bool
    ensures { result ≡ spec.is_capital byte }
{
    byte.is_ascii_uppercase()
}

/// A letter from A to Z or from a to z.
pub fn is_letter(byte: u8) -> bool
    ensures { result ≡ spec.is_letter byte }
{
    byte.is_ascii_uppercase() || byte.is_ascii_lowercase()
}

/// A digit from 0 to 9.
pub fn is_digit(byte: u8) -> bool
    ensures { result ≡ spec.is_digit byte }
{
    byte.is_ascii_digit()
}

/// A digit from 0 to 9, from A to F or from a to f.
pub fn is_hex_digit(byte: u8) -> bool
    ensures { result ≡ spec.is_hex_digit byte }
{
    byte.is_ascii_hexdigit()
}

/// The first byte of a C name: a letter or `_`. Rule: ISO C, "Identifiers".
pub fn begins_names(byte: u8) -> bool
    ensures { result ≡ spec.begins_names byte }
{
    is_letter(byte) || byte == b'_'
}

/// A byte of a name: a letter, a digit or `_`. Rule: ISO C, "Identifiers".
pub fn is_name_byte(byte: u8) -> bool
    ensures { result ≡ spec.is_name_byte byte }
{
    begins_names(byte) || is_digit(byte)
}

/// A space or a tab.
pub fn is_blank(byte: u8) -> bool
    ensures { result ≡ spec.is_blank byte }
{
    byte == b' ' || byte == b'\t'
}

/// Whether each byte is a byte of names.
pub fn are_name_bytes(text: &[u8]) -> bool
    ensures { result ≡ list_all spec.is_name_byte text.now }
{
    text.iter().all(|byte| is_name_byte(*byte))
}
