ghost use Rattle.std.specs.Prelude.{◌≡◌, IfOk};
ghost use Rattle.kconf_words.specs.Faults.{Gives};
ghost use Rattle.kconf_rests.specs.Rests as spec;
ghost use Rattle.kconf_rests.specs.Reading as inner;

use crate::conditions::condition;
use crate::expressions::{expression_at, within_limit};
use kconf_entries::{DefaultOf, Expr};
use kconf_words::{Form, LineBad, LineWord, is_literal, text_of};
use std::alloc::{AllocError, Global};
use ut_logic::Text;

/// Whether a word stands between quote marks.
fn is_quoted(form: Form) -> bool
    ensures { result ≡ spec.is_quoted form }
{
    match form {
        Form::Bare => false,
        Form::Quoted => true,
        Form::Sign => false,
    }
}

/// The text of a value's word, where it is a literal, or quoted without a macro call left in it.
fn word_text(alloc: Global, word: &LineWord) -> Result<Option<Text>, AllocError>
    ensures { IfOk result (λ t. t ≡ spec.word_text word.now) }
{
    if is_literal(word) || (is_quoted(word.form) && !word.has_call) {
        Ok(Some(text_of(alloc, word)?))
    } else {
        Ok(None)
    }
}

/// The text of a value that is one word, after which these words are left.
fn value_text(
    alloc: Global,
    words: &[LineWord],
    left: &[LineWord],
) -> Result<Option<Text>, AllocError>
    ensures { IfOk result (λ t. t ≡ spec.value_text words.now left.now) }
{
    match words {
        [first, rest @ ..] if rest.len() == left.len() => word_text(alloc, first),
        _ => Ok(None),
    }
}

/// The default of a value and its condition, over whose words not too many signs stand.
fn default_of(
    value: Option<Expr>,
    condition: Option<Expr>,
    text: Option<Text>,
) -> Result<DefaultOf, LineBad>
    ensures { Gives result (inner.limited_default value condition text) }
{
    let value = within_limit(value)?;
    let cond = within_limit(condition)?;
    Ok(DefaultOf { value, cond, text })
}

/// A value with a condition of its own.
pub fn a_value(alloc: Global, words: &[LineWord]) -> Result<DefaultOf, LineBad>
    ensures { Gives result (spec.a_value words.now) }
{
    let read = expression_at(alloc, words)?;
    let condition = condition(alloc, read.rest)?;
    let text = value_text(alloc, words, read.rest)?;
    default_of(read.expr, condition, text)
}
