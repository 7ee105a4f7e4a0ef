//! Parentheses round parentheses: all of them are passed at once, so that a condition in many costs its tokens.

ghost use Rattle.std.specs.Prelude.{◌≡◌, ◌+◌, ◌≤◌, ◌<◌, ℕ, length, take, drop, true};
ghost use Rattle.std.specs.List.{list_all};
ghost use Rattle.cpp_read.specs.Conditions as spec;
ghost use Rattle.cpp_read.specs.Conditions.{Reader, Reads};
ghost use Rattle.cpp_read.specs.Depth as depths;
ghost use Rattle.cpp_read.specs.Rows as rows;
ghost use Rattle.cpp_read.specs.Signs as signs;

use crate::depth::{is_balanced, is_close, is_open};
use crate::token::Token;

/// How many opening parentheses stand at the front.
fn open_len(tokens: &[Token]) -> usize
    ensures { result ≤ length tokens.now }
{
    let mut count = 0;
    for token in tokens {
        if !is_open(token) {
            return count;
        }
        count += 1;
    }
    count
}

/// How many closing parentheses stand at the end.
fn close_len(tokens: &[Token]) -> usize
    ensures { result ≤ length tokens.now }
{
    let mut count = 0;
    for token in tokens {
        count = if is_close(token) { count + 1 } else { 0 };
    }
    count
}

/// How many of the parentheses that are open before these tokens are open at all of them.
fn least_open(tokens: &[Token], before: usize) -> usize
    ensures { result ≤ before }
{
    let mut depth = before;
    let mut least = before;
    for token in tokens {
        if is_open(token) {
            depth = depth.saturating_add(1);
        }
        if is_close(token) {
            depth = depth.saturating_sub(1);
        }
        least = least.min(depth);
    }
    least
}

/// How many parentheses stand round all these tokens, one within another. `is_nest` decides whether it is so.
fn nested(tokens: &[Token]) -> usize
    ensures { result + result ≤ length tokens.now }
{
    let front = open_len(tokens);
    let inner = &tokens[front..];
    let back = close_len(inner);
    let middle = &inner[..inner.len() - back];
    least_open(middle, front).min(back).min(tokens.len() / 2)
}

/// Whether all of these open.
fn are_open(tokens: &[Token]) -> bool
    ensures { result ≡ list_all signs.is_open tokens.now }
{
    tokens.iter().all(|t| is_open(t))
}

/// Whether all of these close.
fn are_close(tokens: &[Token]) -> bool
    ensures { result ≡ list_all signs.is_close tokens.now }
{
    tokens.iter().all(|t| is_close(t))
}

/// Whether parentheses stand round tokens whose own parentheses match.
fn is_nest(front: &[Token], core: &[Token], back: &[Token]) -> bool
    ensures { result ≡ rows.is_nest front.now core.now back.now }
{
    front.len() == back.len() && are_open(front) && are_close(back) && is_balanced(core)
}

/// The tokens between the parentheses of a group.
fn inside(tokens: &[Token]) -> &[Token]
    requires { depths.is_group tokens.now ≡ true }
    ensures value { result.now ≡ spec.inside tokens.now }
    ensures len { length result.now < length tokens.now }
{
    &tokens[1..tokens.len() - 1]
}

/// The first so many tokens.
fn front_of(tokens: &[Token], count: usize) -> &[Token]
    requires { count ≤ length tokens.now }
    ensures value { result.now ≡ take count tokens.now }
    ensures len { length result.now ≡ count }
{
    &tokens[..count]
}

/// The tokens after the first so many.
pub fn rest_of(tokens: &[Token], count: usize) -> &[Token]
    requires { count ≤ length tokens.now }
    ensures value { result.now ≡ drop count tokens.now }
    ensures len { length result.now + count ≡ length tokens.now }
{
    &tokens[count..]
}

/// What is read in place of the inside of a group: what stands in all parentheses round it.
pub fn core(tokens: &[Token]) -> &[Token]
    requires { depths.is_group tokens.now ≡ true }
    ensures same { (line : ℕ) (f : Reader) → Reads line f → f result.now ≡ f (spec.inside tokens.now) }
    ensures len { length result.now < length tokens.now }
{
    let count = nested(tokens);
    let front = front_of(tokens, count);
    let rest = rest_of(tokens, count);
    let size = rest.len() - count;
    let middle = front_of(rest, size);
    let back = rest_of(rest, size);
    if count > 0 && is_nest(front, middle, back) {
        return middle;
    }
    inside(tokens)
}
