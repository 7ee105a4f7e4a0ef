ghost use Rattle.std.specs.Prelude.{◌≡◌};
ghost use Rattle.kconf_words.specs.Faults.{Gives};
ghost use Rattle.kconf_rests.specs.Rests as spec;
ghost use Rattle.kconf_rests.specs.Reading as inner;

use crate::expressions::{expression_alone, within_limit};
use crate::names::{name_at, text_at};
use kconf_entries::{Expr, SelectOf};
use kconf_words::{LineBad, LineWord, SyntaxKind, is_word};
use std::alloc::Global;
use ut_logic::Trit;

/// A condition of the line's own: `if` and an expression, or nothing, which is y. None where too many signs stand over
/// one of its words.
pub fn condition(alloc: Global, words: &[LineWord]) -> Result<Option<Expr>, LineBad>
    ensures { inner.OneExpression (spec.condition words.now) result }
{
    match words {
        [] => Ok(Some(Expr::Const(Trit::Y))),
        [first, rest @ ..] if is_word(first, b"if") => expression_alone(alloc, rest),
        [_, ..] => Err(LineBad::Syntax(SyntaxKind::Extra)),
    }
}

/// A condition of the line's own, over whose words not too many signs stand.
pub fn a_condition(alloc: Global, words: &[LineWord]) -> Result<Expr, LineBad>
    ensures { Gives result (spec.a_condition words.now) }
{
    let condition = condition(alloc, words)?;
    within_limit(condition)
}

/// A text with a condition of its own.
pub fn a_prompt(alloc: Global, words: &[LineWord]) -> Result<Expr, LineBad>
    ensures { Gives result (spec.a_prompt words.now) }
{
    let rest = text_at(words)?;
    a_condition(alloc, rest)
}

/// Whether no prompt stands there: nothing, or `if`, which begins a condition without effect.
fn is_without_prompt(words: &[LineWord]) -> bool
    ensures { result ≡ spec.without_prompt words.now }
{
    match words {
        [] => true,
        [first, ..] => is_word(first, b"if"),
    }
}

/// A text with a condition of its own, or a condition alone, or nothing.
pub fn a_prompt_or_none(alloc: Global, words: &[LineWord]) -> Result<Option<Expr>, LineBad>
    ensures { Gives result (spec.a_prompt_or_none words.now) }
{
    if is_without_prompt(words) {
        a_condition(alloc, words)?;
        return Ok(None);
    }
    let prompt = a_prompt(alloc, words)?;
    Ok(Some(prompt))
}

/// A name with a condition of its own.
pub fn a_target(alloc: Global, words: &[LineWord]) -> Result<SelectOf, LineBad>
    ensures { Gives result (spec.a_target words.now) }
{
    let (target, rest) = name_at(alloc, words)?;
    let cond = a_condition(alloc, rest)?;
    Ok(SelectOf { target, cond })
}

/// Any two words, with a condition of their own.
pub fn two_words(alloc: Global, words: &[LineWord]) -> Result<(), LineBad>
    ensures { inner.GivesNothing result (spec.two_words words.now) }
{
    match words {
        [_, _, rest @ ..] => {
            a_condition(alloc, rest)?;
            Ok(())
        }
        _ => Err(LineBad::Syntax(SyntaxKind::Expression)),
    }
}
