ghost use Rattle.std.specs.Prelude.{◌≡◌, fold};
ghost use Rattle.std.specs.Cmp.{partial_equiv_from_equiv};
ghost use Rattle.std.proofs.Common.{ap};
ghost use Rattle.ut_text.specs.Text.{text_eq, text_eq-exact, text_equiv};
ghost use Rattle.kconf_tree.specs.Feeding.{byte_writes};

use indexmap::Equivalent;
use std::hash::{Hash, Hasher};
use std::marker::Model;
use ut_logic::Text;

/// The text of an outer condition, hashed byte by byte, so that a comparison that is not written out hashes
/// the same.
#[derive(Drop)]
pub struct OuterText {
    text: Text,
}

impl Model for OuterText {
    ghost use Rattle.std.specs.Prelude.{List, ℕ};

    ghost Value = { List ℕ };

    ghost view = { λ t. t.text };
}

/// A text that is looked up among the outer conditions.
#[derive(Clone, Copy, PartialEq, Eq)]
pub struct AskedText<'a>(pub &'a str);

/// Feeds bytes one by one.
pub fn feed<H: Hasher>(state: &mut H, bytes: &[u8])
    ensures { state.new ≡ fold H.write state.old (byte_writes bytes.now) }
{
    for byte in bytes {
        state.write_u8(*byte);
    }
}

impl OuterText {
    /// A text as that of an outer condition.
    pub fn new(text: Text) -> OuterText
        ensures { result ≡ text }
    {
        OuterText { text }
    }

    /// The text.
    pub fn text(&self) -> &str
        ensures { result.now ≡ self.now }
    {
        self.text.text()
    }
}

impl PartialEq for OuterText {
    ghost eq = { text_eq };

    ghost laws = { partial_equiv_from_equiv text_equiv };

    fn eq(&self, other: &OuterText) -> bool {
        self.text == other.text
    }
}

impl Eq for OuterText {
    ghost laws = { text_equiv };
}

impl Hash for OuterText {
    ghost hash_input = { byte_writes };

    ghost respects_eq = { λ x y h. ap byte_writes (text_eq-exact x y h) };

    fn hash<H: Hasher>(&self, state: &mut H) {
        feed(state, self.text().as_bytes());
    }
}

impl<'a> Hash for AskedText<'a> {
    ghost hash_input = { λ q. byte_writes q.0.now };

    ghost respects_eq = { λ x y h. ap byte_writes (text_eq-exact x.0.now y.0.now h) };

    fn hash<H: Hasher>(&self, state: &mut H) {
        feed(state, self.0.as_bytes());
    }
}

impl<'a> Equivalent<OuterText> for AskedText<'a> {
    ghost equivalent = { λ q. text_eq q.0.now };

    ghost respects_hash = { λ q k h. ap byte_writes (text_eq-exact q.0.now k h) };

    ghost respects_eq = { λ q x y. text_equiv.congr q.0.now x y };

    fn equivalent(&self, key: &OuterText) -> bool {
        self.0 == key.text()
    }
}
