ghost use Rattle.std.specs.Prelude.{◌≡◌, IfOk, OnOk, ◌++◌};
ghost use Rattle.kconf_exprs.specs.Grammar as spec;
ghost use Rattle.kconf_exprs.specs.OperandParts as parts;

use kconf_entries::{Expr, Side, Sign};
use kconf_words::{Form, LineWord, constant_of, is_name, text_of};
use std::alloc::{AllocError, Global};
use ut_logic::{Text, Trit};

/// An operand without a macro call.
fn plain_operand(alloc: Global, word: &LineWord) -> Result<Expr, AllocError>
    ensures { IfOk result (λ e. e ≡ spec.plain_operand word.now (parts.constant_of word.now)) }
{
    match constant_of(word) {
        Some(value) => Ok(Expr::Const(value)),
        None if is_name(word) => Ok(Expr::Name(text_of(alloc, word)?)),
        None => Ok(Expr::Const(Trit::N)),
    }
}

/// An operand.
pub fn operand(alloc: Global, word: &LineWord) -> Result<Expr, AllocError>
    ensures { IfOk result (λ e. e ≡ spec.operand word.now) }
{
    if word.has_call {
        return Ok(Expr::Outer(text_of(alloc, word)?));
    }
    plain_operand(alloc, word)
}

/// A side of a comparison.
fn side_of(alloc: Global, word: &LineWord) -> Result<Side, AllocError>
    ensures { IfOk result (λ s. s ≡ spec.side_of word.now) }
{
    if let Some(value) = constant_of(word) {
        return Ok(Side::Const(value));
    }
    let text = text_of(alloc, word)?;
    match word.form {
        Form::Quoted => Ok(Side::Quoted(text)),
        _ if is_name(word) => Ok(Side::Name(text)),
        _ => Ok(Side::Literal(text)),
    }
}

/// Whether a side is written between quote marks.
fn is_written_quoted(word: &LineWord) -> bool
    ensures { result ≡ parts.is_written_quoted word.now }
{
    match word.form {
        Form::Quoted => constant_of(word).is_none(),
        Form::Bare => false,
        Form::Sign => false,
    }
}

/// Appends a side as it is written.
fn push_written(text: &mut Vec<u8>, word: &LineWord) -> Result<(), AllocError>
    ensures { OnOk result (text.new.items ≡ text.old.items ++ spec.written word.now) }
{
    let is_quoted = is_written_quoted(word);
    if is_quoted {
        text.push(b'"')?;
    }
    text.extend_from_slice(word.text.as_slice())?;
    if is_quoted {
        text.push(b'"')?;
    }
    Ok(())
}

/// The text of a comparison.
fn comparison_text(
    alloc: Global,
    left: &LineWord,
    sign: &LineWord,
    right: &LineWord,
) -> Result<Text, AllocError>
    ensures { IfOk result (λ t. t ≡ parts.comparison_text left.now sign.now right.now) }
{
    let mut text = Vec::new(alloc);
    push_written(&mut text, left)?;
    text.push(b' ')?;
    text.extend_from_slice(sign.text.as_slice())?;
    text.push(b' ')?;
    push_written(&mut text, right)?;
    Text::of_bytes(alloc, &text)
}

/// Two words compared.
pub fn compared(
    alloc: Global,
    left: &LineWord,
    word: &LineWord,
    sign: Sign,
    right: &LineWord,
) -> Result<Expr, AllocError>
    ensures { IfOk result (λ e. e ≡ spec.compared left.now word.now sign right.now) }
{
    if left.has_call || right.has_call {
        return Ok(Expr::Outer(comparison_text(alloc, left, word, right)?));
    }
    let left = side_of(alloc, left)?;
    let right = side_of(alloc, right)?;
    Ok(Expr::Compare { left, sign, right })
}
