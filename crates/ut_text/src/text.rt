ghost use Rattle.std.specs.Prelude.{◌≡◌, ◌<◌, IfOk, refl, true};
ghost use Rattle.std.specs.Cmp.{partial_equiv_from_equiv};
ghost use Rattle.std.specs.Ordering.{as_partial_cmp};
ghost use Rattle.std.specs.Hash as fed;
ghost use Rattle.std.specs.List.{list_all};
ghost use Rattle.ut_text.specs.ByteClasses.{is_name_byte};
ghost use Rattle.ut_text.specs.Escapes.{escaped, hex_digit};
ghost use Rattle.ut_text.specs.Text.{text_cmp, text_eq, text_equiv, text_partial_order, text_ties, text_total, alike};

use std::alloc::{AllocError, Global};
use std::cmp::Ordering;
use std::hash::{Hash, Hasher};
use std::marker::Model;

/// A text, which contracts see as its bytes.
#[derive(Debug, Drop)]
pub struct Text {
    text: String,
}

impl Model for Text {
    ghost use Rattle.std.specs.String.{string_bytes};
    ghost use Rattle.ut_text.specs.Bytes.{Bytes};

    ghost Value = { Bytes };

    ghost view = { λ t. string_bytes t.text };
}

impl Text {
    /// A copy of the text. The only error is want of memory.
    pub fn new(alloc: Global, text: &str) -> Result<Text, AllocError>
        ensures { IfOk result (λ t. t ≡ text.now) }
    {
        let text = String::from_str(alloc, text)?;
        Ok(Text { text })
    }

    /// Bytes of a file as a text: each byte past 127 becomes `\x` and two lower-case hexadecimal digits.
    ///
    /// The only error is want of memory. This project's rule.
    pub fn of_bytes(alloc: Global, bytes: &[u8]) -> Result<Text, AllocError>
        ensures { IfOk result (λ t. t ≡ escaped bytes.now) }
    {
        let mut text = String::new(alloc);
        for byte in bytes {
            if *byte < 128 {
                text.push(char::from(*byte))?;
            } else {
                text.push_str("\\x")?;
                text.push(digit(*byte / 16))?;
                text.push(digit(*byte % 16))?;
            }
        }
        Ok(Text { text })
    }

    /// A text of bytes of names, which are ASCII and stay as they are. The only error is want of memory.
    pub fn of_name(alloc: Global, name: &[u8]) -> Result<Text, AllocError>
        requires { list_all is_name_byte name.now ≡ true }
        ensures { IfOk result (λ t. t ≡ name.now) }
    {
        Text::of_bytes(alloc, name)
    }

    /// The text.
    pub fn text(&self) -> &str
        ensures { result.now ≡ self.now }
    {
        self.text.as_str()
    }

    /// An equal text. The only error is want of memory.
    pub fn copy(&self, alloc: Global) -> Result<Text, AllocError>
        ensures { IfOk result (λ t. t ≡ self.now) }
    {
        Text::new(alloc, self.text())
    }
}

fn digit(value: u8) -> char
    requires { value < 16 }
    ensures value { result ≡ hex_digit value }
    ensures ascii { result < 128 }
{
    if value < 10 {
        char::from(b'0' + value)
    } else {
        char::from(b'a' + (value - 10))
    }
}

impl PartialEq for Text {
    ghost eq = { text_eq };

    ghost laws = { partial_equiv_from_equiv text_equiv };

    fn eq(&self, other: &Text) -> bool {
        self.text() == other.text()
    }
}

impl Eq for Text {
    ghost laws = { text_equiv };
}

impl Hash for Text {
    ghost hash_input = { fed.str };

    ghost respects_eq = { alike };

    fn hash<H: Hasher>(&self, state: &mut H) {
        self.text().hash(state);
    }
}

impl PartialOrd for Text {
    ghost partial_cmp = { as_partial_cmp text_cmp };

    ghost laws = { text_partial_order };

    fn partial_cmp(&self, other: &Text) -> Option<Ordering> {
        Some(self.cmp(other))
    }
}

impl Ord for Text {
    ghost cmp = { text_cmp };

    ghost total = { text_total };

    ghost matches_partial_cmp = { λ x y. refl };

    ghost matches_eq = { text_ties };

    fn cmp(&self, other: &Text) -> Ordering {
        self.text().cmp(other.text())
    }
}
