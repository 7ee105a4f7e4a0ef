ghost use Rattle.std.specs.Prelude.{◌≡◌, ◌≤◌, ◌∷◌, [], length, IfOk};
ghost use Rattle.std.specs.List.{prefix_len};
ghost use Rattle.cpp_directives.specs.declared.condition.Cond.TheVariants as conds;
ghost use Rattle.cpp_read.specs.Signs as signs;
ghost use Rattle.cpp_read.specs.Operands as spec;
ghost use Rattle.cpp_read.specs.PieceTexts.{NamesAreTokens};

use crate::depth::{is_close, is_group, is_not, is_open};
use crate::number::{Whole, read_whole};
use crate::token::Token;
use cpp_directives::Cond;
use sqlite_items::Items;
use std::alloc::{AllocError, Global};
use ut_text::Text;

/// The texts of tokens, joined by one space.
fn piece_text(alloc: Global, tokens: &[Token]) -> Result<Text, AllocError>
    ensures { IfOk result (λ t. t ≡ spec.piece_text tokens.now) }
{
    let mut text = String::new(alloc);
    let mut is_first = true;
    for token in tokens {
        if !is_first {
            text.push(' ')?;
        }
        text.push_str(token.text())?;
        is_first = false;
    }
    Text::new(alloc, &text)
}

/// The opaque piece of tokens.
pub fn piece(alloc: Global, tokens: &[Token]) -> Result<Cond, AllocError>
    ensures { IfOk result (λ c. c ≡ conds.Piece (spec.piece_text tokens.now)) }
{
    Ok(Cond::Piece(piece_text(alloc, tokens)?))
}

/// The names that `piece_names` tells of the text of an opaque piece are the name tokens among those that it was made
/// of.
pub fn piece_names_are_tokens()
    ensures { NamesAreTokens }
{}

/// Whether the tokens are one token that is an operand, `defined X`, a group, or a name and a group.
fn is_operand(tokens: &[Token]) -> bool
    ensures { result ≡ spec.is_operand tokens.now }
{
    is_one(tokens) || is_defined(tokens) || is_group(tokens) || is_call(tokens)
}

/// One token that is an operand by itself.
fn is_one(tokens: &[Token]) -> bool
    ensures { result ≡ spec.is_one tokens.now }
{
    match tokens {
        [only] => only.is_atom(),
        _ => false,
    }
}

/// `defined X`.
fn is_defined(tokens: &[Token]) -> bool
    ensures { result ≡ spec.is_defined tokens.now }
{
    match tokens {
        [first, second] => first.is_word("defined") && second.is_ident(),
        _ => false,
    }
}

/// A name and one group.
fn is_call(tokens: &[Token]) -> bool
    ensures { result ≡ spec.is_call tokens.now }
{
    match tokens {
        [first, rest @ ..] => first.is_ident() && is_group(rest),
        [] => false,
    }
}

/// How many `!` stand in a row at the front.
pub fn row_len(tokens: &[Token]) -> usize
    ensures value { result ≡ prefix_len signs.is_not tokens.now }
    ensures within { result ≤ length tokens.now }
{
    let mut count = 0;
    for token in tokens {
        if !is_not(token) {
            return count;
        }
        count += 1;
    }
    count
}

/// Whether the tokens are a unit, which `!` takes.
fn is_unit(tokens: &[Token]) -> bool
    ensures { result ≡ spec.is_unit tokens.now }
{
    is_operand(&tokens[row_len(tokens)..])
}

/// Whether the tokens are `!` and a unit.
pub fn is_negation(tokens: &[Token]) -> bool
    ensures { result ≡ spec.is_negation tokens.now }
{
    match tokens {
        [first, rest @ ..] => is_not(first) && is_unit(rest),
        [] => false,
    }
}

/// The name that stands for `name` as a module.
fn as_module(alloc: Global, name: &str) -> Result<Text, AllocError>
    ensures { IfOk result (λ t. t ≡ spec.as_module name.now) }
{
    let mut text = String::from_str(alloc, name)?;
    text.push_str("_MODULE")?;
    Text::new(alloc, &text)
}

/// `IS_ENABLED` of a name: it is true, or true as a module.
fn enabled(alloc: Global, name: &Text) -> Result<Cond, AllocError>
    ensures { IfOk result (λ c. c ≡ conds.AnyOf (conds.Plain name.now ∷ conds.Plain (spec.as_module name.now) ∷ [])) }
{
    let built_in = Cond::Plain(name.copy(alloc)?);
    let module = Cond::Plain(as_module(alloc, name.text())?);
    let either = vec![in alloc; built_in, module]?;
    Ok(Cond::AnyOf(Items::from_vec(either)))
}

/// `IS_BUILTIN`, `IS_MODULE` or `IS_ENABLED` of a name.
fn kconfig_call(alloc: Global, function: &str, name: &Text) -> Result<Option<Cond>, AllocError>
    ensures { IfOk result (λ c. c ≡ spec.kconfig_call function.now name.now) }
{
    if function == "IS_BUILTIN" {
        return Ok(Some(Cond::Plain(name.copy(alloc)?)));
    }
    if function == "IS_MODULE" {
        return Ok(Some(Cond::Plain(as_module(alloc, name.text())?)));
    }
    if function == "IS_ENABLED" {
        return Ok(Some(enabled(alloc, name)?));
    }
    Ok(None)
}

/// `defined(X)`, or one of these.
fn name_call(alloc: Global, function: &str, name: &Text) -> Result<Option<Cond>, AllocError>
    ensures { IfOk result (λ c. c ≡ spec.name_call function.now name.now) }
{
    if function == "defined" {
        return Ok(Some(Cond::Defined(name.copy(alloc)?)));
    }
    kconfig_call(alloc, function, name)
}

/// A name, and a name in parentheses.
fn called(alloc: Global, function: &Token, argument: &Token) -> Result<Option<Cond>, AllocError>
    ensures { IfOk result (λ c. c ≡ spec.called function.now argument.now) }
{
    match function {
        Token::Ident(function) => called_by(alloc, function.text(), argument),
        _ => Ok(None),
    }
}

/// The function of that name, and what stands between the parentheses.
fn called_by(alloc: Global, function: &str, argument: &Token) -> Result<Option<Cond>, AllocError>
    ensures { IfOk result (λ c. c ≡ spec.called_by function.now argument.now) }
{
    match argument {
        Token::Ident(name) => name_call(alloc, function, name),
        _ => Ok(None),
    }
}

/// `defined X`.
fn defined_of(alloc: Global, first: &Token, second: &Token) -> Result<Option<Cond>, AllocError>
    ensures { IfOk result (λ c. c ≡ spec.defined_of first.now second.now) }
{
    match second {
        Token::Ident(name) => defined_by(alloc, first, name),
        _ => Ok(None),
    }
}

/// The word before a name, where it is `defined`.
fn defined_by(alloc: Global, first: &Token, name: &Text) -> Result<Option<Cond>, AllocError>
    ensures { IfOk result (λ c. c ≡ spec.defined_by first.now name.now) }
{
    if !first.is_word("defined") {
        return Ok(None);
    }
    Ok(Some(Cond::Defined(name.copy(alloc)?)))
}

/// A whole number: whether it is not 0.
fn number_cond(whole: Whole) -> Option<Cond>
    ensures { result ≡ spec.number_cond whole }
{
    match whole {
        Whole::NotWhole => None,
        Whole::Zero => Some(Cond::Const(false)),
        Whole::Nonzero | Whole::Wide => Some(Cond::Const(true)),
    }
}

/// The condition of one token: a name is true, a whole number is not 0.
fn single_of(alloc: Global, token: &Token) -> Result<Option<Cond>, AllocError>
    ensures { IfOk result (λ c. c ≡ spec.single_of token.now) }
{
    match token {
        Token::Ident(name) => Ok(Some(Cond::Plain(name.copy(alloc)?))),
        Token::Number(text) => Ok(number_cond(read_whole(text.text().as_bytes()))),
        Token::Quoted(_) | Token::Sign(_) => Ok(None),
    }
}

/// A name, and a name between parentheses.
fn call_of(
    alloc: Global,
    function: &Token,
    opener: &Token,
    argument: &Token,
    closer: &Token,
) -> Result<Option<Cond>, AllocError>
    ensures { IfOk result (λ c. c ≡ spec.call_of function.now opener.now argument.now closer.now) }
{
    if !is_open(opener) || !is_close(closer) {
        return Ok(None);
    }
    called(alloc, function, argument)
}

/// The condition of a list without operators, if it has one of the known forms.
fn leaf_of(alloc: Global, tokens: &[Token]) -> Result<Option<Cond>, AllocError>
    ensures { IfOk result (λ c. c ≡ spec.leaf_of tokens.now) }
{
    match tokens {
        [only] => single_of(alloc, only),
        [first, second] => defined_of(alloc, first, second),
        [function, open, argument, close] => call_of(alloc, function, open, argument, close),
        _ => Ok(None),
    }
}

/// The condition of a list without operators; an opaque piece if it has no form of its own.
pub fn leaf(alloc: Global, tokens: &[Token]) -> Result<Cond, AllocError>
    ensures { IfOk result (λ c. c ≡ spec.or_piece tokens.now (spec.leaf_of tokens.now)) }
{
    match leaf_of(alloc, tokens)? {
        Some(cond) => Ok(cond),
        None => piece(alloc, tokens),
    }
}
