ghost use Rattle.std.specs.Prelude.{◌≡◌, ℕ, ◌<◌, length, drop, suc, true, false, IfOk, not};
ghost use Rattle.std.specs.List.{list_all, prefix_len};
ghost use Rattle.cpp_read.specs.Depth as depths;
ghost use Rattle.cpp_read.specs.Depth.{parts, before_at};
ghost use Rattle.cpp_read.specs.Conditions as spec;
ghost use Rattle.cpp_read.specs.Conditions.{Reader, Reads, single, each};
ghost use Rattle.cpp_read.specs.Operands.{is_negation};
ghost use Rattle.cpp_read.specs.Rows.{nots};
ghost use Rattle.cpp_read.specs.Signs.{is_not};
ghost use Rattle.cpp_read.specs.Condition.{ruled_condition, condition};
ghost use Rattle.cpp_directives.specs.Refusals.{Answers, AnswersList};

use crate::depth::{Joint, before, is_balanced, is_group};
use crate::nest::{core, rest_of};
use crate::number::{Whole, read_whole};
use crate::operand::{is_negation, leaf, piece, row_len};
use crate::signs_over::signs_fit;
use crate::token::Token;
use cpp_directives::{Cond, CppBad};
use sqlite_items::{Boxed, Items};
use std::alloc::{AllocError, Global};

/// Whether such a sign stands outside all parentheses.
fn has(joint: Joint, tokens: &[Token]) -> bool
    ensures value { result ≡ depths.has joint tokens.now }
    ensures before { result ≡ true → before_at joint 0 tokens.now < length tokens.now }
{
    before(joint, tokens) < tokens.len()
}

/// Whether there is no token.
fn is_none(tokens: &[Token]) -> bool
    ensures { result ≡ spec.is_none tokens.now }
{
    match tokens {
        [] => true,
        _ => false,
    }
}

/// The condition of the tokens, by the first rule that fits.
#[cycle(read)]
fn read(alloc: Global, tokens: &[Token], line: u32) -> Result<Cond, CppBad>
    ensures { (f : Reader) → Reads line f → Answers result (f tokens.now) }
{
    if is_none(tokens) {
        return Err(CppBad::Condition { line });
    }
    if has(Joint::Pick, tokens) {
        return Ok(piece(alloc, tokens)?);
    }
    if has(Joint::Any, tokens) {
        let list = read_parts(alloc, Joint::Any, tokens, line)?;
        return Ok(Cond::AnyOf(Items::from_vec(list)));
    }
    if has(Joint::All, tokens) {
        let list = read_parts(alloc, Joint::All, tokens, line)?;
        return Ok(Cond::AllOf(Items::from_vec(list)));
    }
    read_single(alloc, tokens, line)
}

/// The conditions of the parts, in order.
#[cycle(read)]
fn read_parts(alloc: Global, joint: Joint, tokens: &[Token], line: u32) -> Result<Vec<Cond>, CppBad>
    requires { before_at joint 0 tokens.now < length tokens.now }
    ensures { (f : Reader) → Reads line f → AnswersList result (each f (parts joint tokens.now)) }
{
    let mut list = Vec::new(alloc);
    let mut rest = tokens;
    'parts: loop {
        let count = before(joint, rest);
        let part = read(alloc, &rest[..count], line)?;
        list.push(part)?;
        if count == rest.len() {
            break 'parts;
        }
        rest = after(rest, count);
    }
    Ok(list)
}

/// The tokens after that place.
fn after(tokens: &[Token], at: usize) -> &[Token]
    requires { at < length tokens.now }
    ensures value { result.now ≡ drop (suc at) tokens.now }
    ensures len { length result.now < length tokens.now }
{
    &tokens[at + 1..]
}

/// The condition of a list without operators between parts.
#[cycle(read)]
fn read_single(alloc: Global, tokens: &[Token], line: u32) -> Result<Cond, CppBad>
    requires { spec.is_none tokens.now ≡ false }
    ensures { (f : Reader) → Reads line f → Answers result (single f tokens.now) }
{
    if is_negation(tokens) {
        return read_row(alloc, tokens, line);
    }
    if is_group(tokens) {
        return read(alloc, core(tokens), line);
    }
    Ok(leaf(alloc, tokens)?)
}

/// The condition of a row of `!` and an operand, which is read once however long the row is.
#[cycle(read)]
fn read_row(alloc: Global, tokens: &[Token], line: u32) -> Result<Cond, CppBad>
    requires { is_negation tokens.now ≡ true }
    ensures { (f : Reader) → Reads line f → Answers result (single f tokens.now) }
{
    let count = row_len(tokens);
    let operand = read(alloc, after_row(tokens, count), line)?;
    Ok(negated(alloc, operand, count)?)
}

/// The tokens after a row of `!`.
fn after_row(tokens: &[Token], count: usize) -> &[Token]
    requires row { is_negation tokens.now ≡ true }
    requires count { count ≡ prefix_len is_not tokens.now }
    ensures value { result.now ≡ drop (prefix_len is_not tokens.now) tokens.now }
    ensures len { length result.now < length tokens.now }
{
    rest_of(tokens, count)
}

/// A condition, negated so many times.
fn negated(alloc: Global, cond: Cond, count: usize) -> Result<Cond, AllocError>
    ensures { IfOk result (λ c. c ≡ nots count cond) }
{
    let mut whole = cond;
    for time in 0..count {
        whole = Cond::Neg(Boxed::new(alloc, whole)?);
    }
    Ok(whole)
}

/// A whole number that needs more than 128 bits.
fn is_wide(token: &Token) -> bool
    ensures { result ≡ spec.is_wide token.now }
{
    match token {
        Token::Number(text) => read_whole(text.text().as_bytes()) == Whole::Wide,
        _ => false,
    }
}

/// Whether no token is such a number.
fn numbers_fit(tokens: &[Token]) -> bool
    ensures { result ≡ list_all (λ t. not (spec.is_wide t)) tokens.now }
{
    tokens.iter().all(|t| !is_wide(t))
}

/// Whether parentheses match, no token has too many signs over it and no number is too wide.
fn is_readable(alloc: Global, tokens: &[Token]) -> Result<bool, AllocError>
    ensures { IfOk result (λ b. b ≡ spec.is_readable tokens.now) }
{
    let fits = signs_fit(alloc, tokens)?;
    Ok(is_balanced(tokens) && fits && numbers_fit(tokens))
}

/// The condition of the tokens of a line.
///
/// A list is read by the first rule that fits: an opaque piece where `?` or `,` stands outside parentheses; the
/// parts of `||`; those of `&&`; `!` and a unit; the inside of a group; `defined X`, `IS_BUILTIN(X)`,
/// `IS_MODULE(X)`, `IS_ENABLED(X)`, a name, a whole number; else an opaque piece.
///
/// `Condition` comes where a list that is read so is empty, parentheses do not match, a token has more than 200
/// signs over it, or a whole number needs more than 128 bits; `Oom` where there is no memory.
pub fn read_condition(alloc: Global, tokens: &[Token], line: u32) -> Result<Cond, CppBad>
    ensures { Answers result (condition line tokens.now) }
{
    if !is_readable(alloc, tokens)? {
        return Err(CppBad::Condition { line });
    }
    read(alloc, tokens, line)
}

/// The rules decide every list: the reader that the condition is defined by reads each list by the first rule that
/// fits.
pub fn conditions_follow_rules()
    ensures { (line : ℕ) → Reads line (ruled_condition line) }
{}
