ghost use Rattle.std.specs.Prelude.{◌≡◌};
ghost use Rattle.cpp_read.specs.Signs as spec;

use ut_text::Text;

/// A token of a line.
#[derive(Drop)]
pub enum Token {
    /// A name: a letter or `_`, followed by letters, digits and `_`.
    Ident(Text),
    /// A preprocessing number.
    Number(Text),
    /// A string or a character literal, with its quotes.
    Quoted(Text),
    /// A sign, or any other byte alone.
    Sign(Text),
}

impl Token {
    /// Whether the token is this sign.
    pub(crate) fn is_sign(&self, sign: &str) -> bool
        ensures { result ≡ spec.is_sign sign.now self.now }
    {
        match self {
            Token::Sign(text) => text.text() == sign,
            _ => false,
        }
    }

    /// Whether the token is this name.
    pub(crate) fn is_word(&self, word: &str) -> bool
        ensures { result ≡ spec.is_word word.now self.now }
    {
        match self {
            Token::Ident(text) => text.text() == word,
            _ => false,
        }
    }

    /// A name.
    pub(crate) fn is_ident(&self) -> bool
        ensures { result ≡ spec.is_ident self.now }
    {
        match self {
            Token::Ident(_) => true,
            _ => false,
        }
    }

    /// Whether the token is a name, a number or a character literal.
    pub(crate) fn is_atom(&self) -> bool
        ensures { result ≡ spec.is_atom self.now }
    {
        match self {
            Token::Ident(_) | Token::Number(_) => true,
            Token::Quoted(text) => begins_char(text.text().as_bytes()),
            Token::Sign(_) => false,
        }
    }

    /// The text of a token.
    pub(crate) fn text(&self) -> &str
        ensures { result.now ≡ spec.text_of self.now }
    {
        match self {
            Token::Ident(text) => text.text(),
            Token::Number(text) => text.text(),
            Token::Quoted(text) => text.text(),
            Token::Sign(text) => text.text(),
        }
    }
}

/// Whether a quoted text is a character literal.
fn begins_char(text: &[u8]) -> bool
    ensures { result ≡ spec.begins_char text.now }
{
    match text {
        [first, ..] => *first == b'\'',
        [] => false,
    }
}
