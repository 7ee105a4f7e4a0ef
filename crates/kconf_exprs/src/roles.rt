ghost use Rattle.std.specs.Prelude.{◌≡◌};
ghost use Rattle.kconf_exprs.specs.Grammar as spec;

use kconf_entries::Sign;
use kconf_words::{Form, LineWord};

/// What a word is in an expression.
#[derive(Clone, Copy)]
pub enum Role {
    /// A word that is no sign.
    Operand,
    Not,
    And,
    Or,
    Open,
    Close,
    Compares(Sign),
    /// A byte that no expression has.
    Other,
}

/// What a sign does in an expression.
fn role_of_sign(text: &[u8]) -> Role
    ensures { result ≡ spec.role_of_sign text.now }
{
    match text {
        b"!" => Role::Not,
        b"&&" => Role::And,
        b"||" => Role::Or,
        b"(" => Role::Open,
        b")" => Role::Close,
        b"=" => Role::Compares(Sign::Same),
        b"!=" => Role::Compares(Sign::Differ),
        b"<" => Role::Compares(Sign::Less),
        b">" => Role::Compares(Sign::More),
        b"<=" => Role::Compares(Sign::LessSame),
        b">=" => Role::Compares(Sign::MoreSame),
        _ => Role::Other,
    }
}

/// What the word is in an expression.
pub fn role_of(word: &LineWord) -> Role
    ensures { result ≡ spec.role_of word.now }
{
    match word.form {
        Form::Bare => Role::Operand,
        Form::Quoted => Role::Operand,
        Form::Sign => role_of_sign(word.text.as_slice()),
    }
}
