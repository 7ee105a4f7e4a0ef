//! How many bytes of one class a text begins with.

ghost use Rattle.std.specs.Prelude.{◌≡◌, ◌≤◌, drop, length};
ghost use Rattle.std.specs.List.{prefix_len};
ghost use Rattle.ut_text.specs.ByteClasses as spec;

use crate::byte_classes::{is_blank, is_digit, is_name_byte};

/// The number of blanks at the front.
pub fn blanks(text: &[u8]) -> usize
    ensures value { result ≡ prefix_len spec.is_blank text.now }
    ensures within { result ≤ length text.now }
{
    let mut count = 0;
    for byte in text {
        if !is_blank(*byte) {
            return count;
        }
        count += 1;
    }
    count
}

/// The text after its leading blanks.
pub fn unblanked(text: &[u8]) -> &[u8]
    ensures { result.now ≡ drop (prefix_len spec.is_blank text.now) text.now }
{
    &text[blanks(text)..]
}

/// The number of bytes of a name at the front, which may be 0.
pub fn name_len(text: &[u8]) -> usize
    ensures value { result ≡ prefix_len spec.is_name_byte text.now }
    ensures within { result ≤ length text.now }
{
    let mut count = 0;
    for byte in text {
        if !is_name_byte(*byte) {
            return count;
        }
        count += 1;
    }
    count
}

/// The number of digits at the front.
pub fn digits_len(text: &[u8]) -> usize
    ensures value { result ≡ prefix_len spec.is_digit text.now }
    ensures within { result ≤ length text.now }
{
    let mut count = 0;
    for byte in text {
        if !is_digit(*byte) {
            return count;
        }
        count += 1;
    }
    count
}
