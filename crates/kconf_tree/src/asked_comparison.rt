ghost use Rattle.std.specs.Prelude.{◌≡◌, ◌≢◌, ◌++◌, MatchOption, List, ℕ, fold};
ghost use Rattle.std.specs.Cmp.Rules.{comparing};
ghost use Rattle.std.proofs.Common.{ap, rules};
ghost use Rattle.ut_text.specs.Text.{text_eq, text_eq-exact, text_equiv};
ghost use Rattle.kconf_entries.specs.Written.{comparison_text, side_text};
ghost use Rattle.kconf_tree.specs.Feeding.{byte_writes, spelled_eq, spelled_text, asked_eq, asked_text, same_asked};

use crate::outer_text::{OuterText, feed};
use indexmap::Equivalent;
use kconf_entries::{Side, Sign, sign_text, trit_text};
use std::hash::{Hash, Hasher};

/// A side of a comparison: a word, and the quote before and after it.
#[derive(Clone, Copy)]
pub struct Spelled<'a> {
    quote: &'static str,
    word: &'a str,
}

/// A comparison that is looked up among the outer conditions, in its pieces.
#[derive(Clone, Copy)]
pub struct AskedComparison<'a> {
    left: Spelled<'a>,
    sign: &'static str,
    right: Spelled<'a>,
}

/// The rest of the text after a word at its start.
fn after<'a>(text: &'a [u8], word: &[u8]) -> Option<&'a [u8]>
    ensures { MatchOption result ((rest : List ℕ) → text.now ≢ word.now ++ rest) (λ rest. text.now ≡ word.now ++ rest.now) }
{
    text.strip_prefix(word)
}

impl<'a> Spelled<'a> {
    /// A side as it is written.
    fn of(side: &'a Side) -> Spelled<'a>
        ensures { spelled_text result ≡ side_text side.now }
    {
        match side {
            Side::Const(trit) => Spelled {
                quote: "",
                word: trit_text(*trit),
            },
            Side::Name(name) => Spelled {
                quote: "",
                word: name.text(),
            },
            Side::Literal(literal) => Spelled {
                quote: "",
                word: literal.text(),
            },
            Side::Quoted(quoted) => Spelled {
                quote: "\"",
                word: quoted.text(),
            },
        }
    }

    /// Whether the pieces are the same.
    fn is_same(&self, other: &Spelled) -> bool
        ensures { result ≡ spelled_eq self.now other.now }
    {
        self.quote == other.quote && self.word == other.word
    }

    /// Feeds its bytes.
    fn feed<H: Hasher>(&self, state: &mut H)
        ensures { state.new ≡ fold H.write state.old (byte_writes (spelled_text self.now)) }
    {
        feed(state, self.quote.as_bytes());
        feed(state, self.word.as_bytes());
        feed(state, self.quote.as_bytes());
    }

    /// The rest of the text after this at its start.
    fn after<'b>(&self, text: &'b [u8]) -> Option<&'b [u8]>
        ensures { MatchOption result ((rest : List ℕ) → text.now ≢ spelled_text self.now ++ rest) (λ rest. text.now ≡ spelled_text self.now ++ rest.now) }
    {
        let rest = after(text, self.quote.as_bytes())?;
        let rest = after(rest, self.word.as_bytes())?;
        after(rest, self.quote.as_bytes())
    }
}

impl<'a> AskedComparison<'a> {
    /// A comparison in its pieces.
    pub fn of(left: &'a Side, sign: Sign, right: &'a Side) -> AskedComparison<'a>
        ensures { asked_text result ≡ comparison_text left.now sign right.now }
    {
        AskedComparison {
            left: Spelled::of(left),
            sign: sign_text(sign),
            right: Spelled::of(right),
        }
    }

    /// The rest of the text after this at its start.
    fn after<'b>(&self, text: &'b [u8]) -> Option<&'b [u8]>
        ensures { MatchOption result ((rest : List ℕ) → text.now ≢ asked_text self.now ++ rest) (λ rest. text.now ≡ asked_text self.now ++ rest.now) }
    {
        let rest = self.left.after(text)?;
        let rest = after(rest, b" ")?;
        let rest = after(rest, self.sign.as_bytes())?;
        let rest = after(rest, b" ")?;
        self.right.after(rest)
    }

    /// Whether this is the text of it.
    fn is_text(&self, text: &[u8]) -> bool
        ensures { result ≡ text_eq (asked_text self.now) text.now }
    {
        match self.after(text) {
            None => false,
            Some(rest) => rest.is_empty(),
        }
    }
}

impl<'a> PartialEq for AskedComparison<'a> {
    ghost eq = { asked_eq };

    ghost laws = { Prim.search (comparing, rules) };

    fn eq(&self, other: &AskedComparison<'a>) -> bool {
        self.left.is_same(&other.left)
            && self.sign == other.sign
            && self.right.is_same(&other.right)
    }
}

impl<'a> Eq for AskedComparison<'a> {
    ghost laws = { Prim.search (comparing, rules) };
}

impl<'a> Hash for AskedComparison<'a> {
    ghost hash_input = { λ q. byte_writes (asked_text q) };

    ghost respects_eq = { λ x y h. ap byte_writes (same_asked x y h) };

    fn hash<H: Hasher>(&self, state: &mut H) {
        self.left.feed(state);
        feed(state, b" ");
        feed(state, self.sign.as_bytes());
        feed(state, b" ");
        self.right.feed(state);
    }
}

impl<'a> Equivalent<OuterText> for AskedComparison<'a> {
    ghost equivalent = { λ q. text_eq (asked_text q) };

    ghost respects_hash = { λ q k h. ap byte_writes (text_eq-exact (asked_text q) k h) };

    ghost respects_eq = { λ q x y. text_equiv.congr (asked_text q) x y };

    fn equivalent(&self, key: &OuterText) -> bool {
        self.is_text(key.text().as_bytes())
    }
}
