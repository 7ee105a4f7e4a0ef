ghost use Rattle.std.specs.Prelude.{◌≡◌, ◌<◌, ◌≤◌, ◌∷◌, [], true, false, IfOk, IfSome, MatchOption, length};
ghost use Rattle.ut_text.specs.Escapes.{escaped};
ghost use Rattle.cpp_read.specs.Tokens as spec;
ghost use Rattle.cpp_read.specs.TokenSteps as steps;

use crate::token::Token;
use crate::words::{after_white, is_white};
use cpp_directives::{is_quote, quoted_len};
use std::alloc::{AllocError, Global};
use ut_text::{Text, begins_names, is_digit, is_name_byte, name_len};

/// Whether a text begins with a digit.
fn begins_digit(text: &[u8]) -> bool
    ensures { result ≡ spec.begins_digit text.now }
{
    match text {
        [first, ..] => is_digit(*first),
        [] => false,
    }
}

/// Whether a number begins there: a digit, or a dot and a digit.
fn begins_number(first: u8, after: &[u8]) -> bool
    ensures { result ≡ spec.begins_number first after.now }
{
    is_digit(first) || (first == b'.' && begins_digit(after))
}

/// `e`, `E`, `p` or `P`.
fn is_exponent(byte: u8) -> bool
    ensures { result ≡ spec.is_exponent byte }
{
    byte == b'e' || byte == b'E' || byte == b'p' || byte == b'P'
}

/// Whether a byte goes on with a number.
fn is_number_byte(signed: bool, byte: u8) -> bool
    ensures { result ≡ spec.is_number_byte signed byte }
{
    is_name_byte(byte) || byte == b'.' || (signed && (byte == b'+' || byte == b'-'))
}

/// How many bytes go on with a number.
fn number_len(text: &[u8]) -> usize
    ensures value { result ≡ spec.number_len false text.now }
    ensures within { result ≤ length text.now }
{
    let mut signed = false;
    let mut count = 0;
    for byte in text {
        if !is_number_byte(signed, *byte) {
            return count;
        }
        signed = is_exponent(*byte);
        count += 1;
    }
    count
}

/// A byte that makes a sign with another of itself.
fn is_doubled(byte: u8) -> bool
    ensures { result ≡ spec.is_doubled byte }
{
    byte == b'|' || byte == b'&' || byte == b'=' || byte == b'<' || byte == b'>'
}

/// A byte that makes a sign with an `=` after it.
fn is_compared(byte: u8) -> bool
    ensures { result ≡ spec.is_compared byte }
{
    byte == b'!' || byte == b'<' || byte == b'>'
}

/// Whether two bytes are one sign.
fn is_pair(first: u8, second: u8) -> bool
    ensures { result ≡ spec.is_pair first second }
{
    (first == second && is_doubled(first)) || (second == b'=' && is_compared(first))
}

/// How many bytes go with a sign's first: one or none.
fn sign_len(first: u8, after: &[u8]) -> usize
    ensures value { result ≡ spec.sign_len first after.now }
    ensures within { result ≤ length after.now }
{
    match after {
        [second, ..] => if is_pair(first, *second) { 1 } else { 0 },
        [] => 0,
    }
}

/// How many bytes go with a token's first.
fn more_of(first: u8, after: &[u8]) -> usize
    ensures value { result ≡ spec.more_of first after.now }
    ensures within { result ≤ length after.now }
{
    if begins_names(first) {
        name_len(after)
    } else if begins_number(first, after) {
        number_len(after)
    } else if is_quote(first) {
        quoted_len(first, after)
    } else {
        sign_len(first, after)
    }
}

/// The length of the token at the front.
fn token_len(text: &[u8]) -> usize
    ensures value { result ≡ steps.token_len text.now }
    ensures within { result ≤ length text.now }
{
    match text {
        [first, after @ ..] => 1 + more_of(*first, after),
        [] => 0,
    }
}

/// Whether a token begins there.
fn begins_token(text: &[u8]) -> bool
    ensures { result ≡ steps.begins_token text.now }
{
    match text {
        [first, ..] => !is_white(*first),
        [] => false,
    }
}

/// The spelling of the token at the front, and what stands after it.
fn split_token(text: &[u8]) -> (&[u8], &[u8])
    requires { steps.begins_token text.now ≡ true }
    ensures tokens { spec.spellings_of text.now ≡ result.0.now ∷ spec.spellings_of result.1.now }
    ensures shorter { length result.1.now < length text.now }
{
    text.split_at(token_len(text))
}

/// The token with this spelling.
fn token_of(alloc: Global, bytes: &[u8]) -> Result<Token, AllocError>
    ensures { IfOk result (λ t. t ≡ spec.token_of bytes.now) }
{
    let text = Text::of_bytes(alloc, bytes)?;
    Ok(token_with(bytes, text))
}

/// The token with this spelling, whose text is made.
fn token_with(bytes: &[u8], text: Text) -> Token
    requires { text ≡ escaped bytes.now }
    ensures { result ≡ spec.token_of bytes.now }
{
    match bytes {
        [first, after @ ..] => if begins_names(*first) {
            Token::Ident(text)
        } else if begins_number(*first, after) {
            Token::Number(text)
        } else if is_quote(*first) {
            Token::Quoted(text)
        } else {
            Token::Sign(text)
        },
        [] => Token::Sign(text),
    }
}

/// The spelling of the first token, and what stands after it.
pub fn next_token(text: &[u8]) -> Option<(&[u8], &[u8])>
    ensures value { MatchOption result (spec.spellings_of text.now ≡ []) (λ r. spec.spellings_of text.now ≡ r.0.now ∷ spec.spellings_of r.1.now) }
    ensures shorter { IfSome result (λ r. length r.1.now < length text.now) }
{
    let rest = after_white(text);
    if !begins_token(rest) {
        return None;
    }
    Some(split_token(rest))
}

/// The tokens of a line.
pub fn tokens_of(alloc: Global, text: &[u8]) -> Result<Vec<Token>, AllocError>
    ensures { IfOk result (λ v. v.items ≡ spec.tokens_of text.now) }
{
    let mut list = Vec::new(alloc);
    let mut rest = text;
    while let Some((bytes, more)) = next_token(rest) {
        list.push(token_of(alloc, bytes)?)?;
        rest = more;
    }
    Ok(list)
}
