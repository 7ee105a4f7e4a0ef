ghost use Rattle.std.specs.Prelude.{◌≡◌, ◌<◌, ◌≤◌, IfOk, IfErr, drop, length};
ghost use Rattle.kconf_exprs.specs.Grammar as spec;
ghost use Rattle.kconf_exprs.specs.Reading.{IsRead, Refuses, RefusesAlways, list_at, member_at, factor_form, negated_at, closed_at};

use crate::joints::{Joint, begins_joint, join};
use crate::operands::{compared, operand};
use crate::roles::{Role, role_of};
use kconf_entries::{Expr, Sign};
use kconf_words::LineWord;
use sqlite_items::Boxed;
use std::alloc::{AllocError, AllocFailed, Global};

/// The most signs over a word.
const MOST_SIGNS: usize = 200;

/// Why an expression is not read.
#[derive(Clone, Copy, Debug, PartialEq, Eq)]
pub enum ExprBad {
    /// No expression stands there.
    Absent,
    /// More signs stand over a word than are allowed.
    TooDeep,
    /// There is not enough memory.
    Oom,
}

impl From<AllocError> for ExprBad {
    ghost use Rattle.std.specs.Prelude.{◌≡◌};
    ghost use Rattle.kconf_exprs.specs.declared.reader.ExprBad.TheVariants.{Oom};

    ghost from_gives = { λ _ e. e ≡ Oom };

    fn from(_e: AllocError) -> ExprBad {
        ExprBad::Oom
    }
}

impl<T: Drop> From<AllocFailed<T>> for ExprBad {
    ghost use Rattle.std.specs.Prelude.{◌≡◌};
    ghost use Rattle.kconf_exprs.specs.declared.reader.ExprBad.TheVariants.{Oom};

    ghost from_gives = { λ _ e. e ≡ Oom };

    fn from(_e: AllocFailed<T>) -> ExprBad {
        ExprBad::Oom
    }
}

/// The words after the first.
fn after_first(words: &[LineWord]) -> &[LineWord]
    requires { 0 < length words.now }
    ensures value { result.now ≡ drop 1 words.now }
    ensures shorter { length result.now < length words.now }
{
    &words[1..]
}

/// Two words compared, of which the first and the sign were read.
fn read_right<'a>(
    alloc: Global,
    left: &LineWord,
    word: &LineWord,
    sign: Sign,
    words: &'a [LineWord],
) -> Result<(Expr, &'a [LineWord]), ExprBad>
    ensures read { IfOk result (λ r. IsRead 0 (spec.right_side left.now word.now sign words.now) r.0 r.1.now) }
    ensures refused { IfErr result (λ e. RefusesAlways e (spec.right_side left.now word.now sign words.now)) }
    ensures shorter { IfOk result (λ r. length r.1.now < length words.now) }
{
    match words {
        [] => Err(ExprBad::Absent),
        [right, rest @ ..] => match role_of(right) {
            Role::Operand => Ok((compared(alloc, left, word, sign, right)?, rest)),
            _ => Err(ExprBad::Absent),
        },
    }
}

/// An operand, or two words compared.
fn read_symbol<'a>(
    alloc: Global,
    left: &LineWord,
    words: &'a [LineWord],
) -> Result<(Expr, &'a [LineWord]), ExprBad>
    ensures read { IfOk result (λ r. IsRead 0 (spec.symbol left.now words.now) r.0 r.1.now) }
    ensures refused { IfErr result (λ e. RefusesAlways e (spec.symbol left.now words.now)) }
    ensures within { IfOk result (λ r. length r.1.now ≤ length words.now) }
{
    match words {
        [] => Ok((operand(alloc, left)?, words)),
        [word, rest @ ..] => match role_of(word) {
            Role::Compares(sign) => read_right(alloc, left, word, sign, rest),
            _ => Ok((operand(alloc, left)?, words)),
        },
    }
}

/// Members joined by the sign of the list.
#[cycle(expression)]
fn read_list<'a>(
    alloc: Global,
    joint: Joint,
    words: &'a [LineWord],
    room: usize,
) -> Result<(Expr, &'a [LineWord]), ExprBad>
    ensures read { IfOk result (λ r. IsRead room (list_at joint words.now) r.0 r.1.now) }
    ensures refused { IfErr result (λ e. Refuses e room (list_at joint words.now)) }
    ensures shorter { IfOk result (λ r. length r.1.now < length words.now) }
{
    let (first, after) = read_member(alloc, joint, words, room)?;
    let mut expr = first;
    let mut rest = after;
    'members: while begins_joint(joint, rest) {
        let (next, after) = read_member(alloc, joint, after_first(rest), room)?;
        expr = join(alloc, joint, expr, next)?;
        rest = after;
    }
    Ok((expr, rest))
}

/// A member of a list.
#[cycle(expression)]
fn read_member<'a>(
    alloc: Global,
    joint: Joint,
    words: &'a [LineWord],
    room: usize,
) -> Result<(Expr, &'a [LineWord]), ExprBad>
    ensures read { IfOk result (λ r. IsRead room (member_at joint words.now) r.0 r.1.now) }
    ensures refused { IfErr result (λ e. Refuses e room (member_at joint words.now)) }
    ensures shorter { IfOk result (λ r. length r.1.now < length words.now) }
{
    match joint {
        Joint::Any => read_list(alloc, Joint::All, words, room),
        Joint::All => read_factor(alloc, words, room),
    }
}

/// A symbol, a comparison, an expression in parentheses, or the negation of a factor.
#[cycle(expression)]
fn read_factor<'a>(
    alloc: Global,
    words: &'a [LineWord],
    room: usize,
) -> Result<(Expr, &'a [LineWord]), ExprBad>
    ensures read { IfOk result (λ r. IsRead room (factor_form words.now) r.0 r.1.now) }
    ensures refused { IfErr result (λ e. Refuses e room (factor_form words.now)) }
    ensures shorter { IfOk result (λ r. length r.1.now < length words.now) }
{
    match words {
        [] => Err(ExprBad::Absent),
        [word, rest @ ..] => match role_of(word) {
            Role::Operand => read_symbol(alloc, word, rest),
            Role::Not => read_negated(alloc, rest, room),
            Role::Open => read_closed(alloc, rest, room),
            _ => Err(ExprBad::Absent),
        },
    }
}

/// The negation of a factor, after its `!`.
#[cycle(expression)]
fn read_negated<'a>(
    alloc: Global,
    words: &'a [LineWord],
    room: usize,
) -> Result<(Expr, &'a [LineWord]), ExprBad>
    ensures read { IfOk result (λ r. IsRead room (negated_at words.now) r.0 r.1.now) }
    ensures refused { IfErr result (λ e. Refuses e room (negated_at words.now)) }
    ensures shorter { IfOk result (λ r. length r.1.now < length words.now) }
{
    if room == 0 {
        return Err(ExprBad::TooDeep);
    }
    let (inner, rest) = read_factor(alloc, words, room - 1)?;
    let inner = Boxed::new(alloc, inner)?;
    Ok((Expr::Neg(inner), rest))
}

/// Whether `)` stands at the front.
fn begins_close(words: &[LineWord]) -> bool
    ensures { result ≡ spec.begins_with spec.is_close words.now }
{
    match words {
        [word, ..] => match role_of(word) {
            Role::Close => true,
            _ => false,
        },
        [] => false,
    }
}

/// An expression and the `)` after it.
#[cycle(expression)]
fn read_closed<'a>(
    alloc: Global,
    words: &'a [LineWord],
    room: usize,
) -> Result<(Expr, &'a [LineWord]), ExprBad>
    ensures read { IfOk result (λ r. IsRead room (closed_at words.now) r.0 r.1.now) }
    ensures refused { IfErr result (λ e. Refuses e room (closed_at words.now)) }
    ensures shorter { IfOk result (λ r. length r.1.now < length words.now) }
{
    if room == 0 {
        return Err(ExprBad::TooDeep);
    }
    let (inner, rest) = read_list(alloc, Joint::Any, words, room - 1)?;
    if !begins_close(rest) {
        return Err(ExprBad::Absent);
    }
    Ok((inner, after_first(rest)))
}

/// The expression that these words begin with, and the words after it.
///
/// Errors: `Absent` where none stands there, `TooDeep` where more than 200 signs stand over one of its words, and
/// `Oom`. Of words without an expression `TooDeep` says nothing: ask `expression_len` before.
pub fn read_expression<'a>(
    alloc: Global,
    words: &'a [LineWord],
) -> Result<(Expr, &'a [LineWord]), ExprBad>
    ensures read { IfOk result (λ r. IsRead 200 (spec.expression_at words.now) r.0 r.1.now) }
    ensures refused { IfErr result (λ e. Refuses e 200 (spec.expression_at words.now)) }
{
    read_list(alloc, Joint::Any, words, MOST_SIGNS)
}
