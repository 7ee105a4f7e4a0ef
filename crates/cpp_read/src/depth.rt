ghost use Rattle.std.specs.Prelude.{◌≡◌, ◌≤◌, ◌<◌, length};
ghost use Rattle.cpp_read.specs.Signs as signs;
ghost use Rattle.cpp_read.specs.Depth as spec;

use crate::token::Token;

/// A sign between parts: `?` or `,`, `||`, `&&`.
#[derive(Clone, Copy)]
pub enum Joint {
    Pick,
    Any,
    All,
}

/// `(`.
pub fn is_open(token: &Token) -> bool
    ensures { result ≡ signs.is_open token.now }
{
    token.is_sign("(")
}

/// `)`.
pub fn is_close(token: &Token) -> bool
    ensures { result ≡ signs.is_close token.now }
{
    token.is_sign(")")
}

/// `!`.
pub fn is_not(token: &Token) -> bool
    ensures { result ≡ signs.is_not token.now }
{
    token.is_sign("!")
}

/// Whether the parts stand between such tokens.
fn joins(joint: Joint, token: &Token) -> bool
    ensures { result ≡ spec.joins joint token.now }
{
    match joint {
        Joint::Pick => token.is_sign("?") || token.is_sign(","),
        Joint::Any => token.is_sign("||"),
        Joint::All => token.is_sign("&&"),
    }
}

/// The depth after a token.
fn deeper(depth: usize, token: &Token) -> usize
    requires { depth < 18446744073709551615 }
    ensures { result ≡ spec.deeper depth token.now }
{
    if is_open(token) {
        depth + 1
    } else if is_close(token) {
        depth.saturating_sub(1)
    } else {
        depth
    }
}

/// How many tokens stand before the first such sign outside parentheses.
pub fn before(joint: Joint, tokens: &[Token]) -> usize
    ensures value { result ≡ spec.before_at joint 0 tokens.now }
    ensures within { result ≤ length tokens.now }
{
    let mut depth = 0;
    let mut count = 0;
    for token in tokens {
        if joins(joint, token) && depth == 0 {
            return count;
        }
        depth = deeper(depth, token);
        count += 1;
    }
    count
}

/// Whether the parenthesis that is open before these tokens is closed by the last of them.
fn closes_at_end(tokens: &[Token]) -> bool
    ensures { result ≡ spec.closes_at_end 1 tokens.now }
{
    let mut depth = 1;
    let mut count = 0;
    for token in tokens {
        depth = deeper(depth, token);
        count += 1;
        if depth == 0 {
            return count == tokens.len();
        }
    }
    false
}

/// Whether the tokens are one parenthesised group.
pub fn is_group(tokens: &[Token]) -> bool
    ensures { result ≡ spec.is_group tokens.now }
{
    match tokens {
        [first, rest @ ..] => is_open(first) && closes_at_end(rest),
        [] => false,
    }
}

/// Whether each parenthesis has its match.
pub fn is_balanced(tokens: &[Token]) -> bool
    ensures { result ≡ spec.is_balanced 0 tokens.now }
{
    let mut depth = 0;
    for token in tokens {
        if is_close(token) && depth == 0 {
            return false;
        }
        depth = deeper(depth, token);
    }
    depth == 0
}
