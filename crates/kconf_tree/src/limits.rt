ghost use Rattle.std.specs.Prelude.{◌≡◌, Some, None, length, map};
ghost use Rattle.kconf_tree.specs.Limits as spec;
ghost use Rattle.kconf_tree.specs.declared.shape.Choice as one_choice;
ghost use Rattle.kconf_tree.specs.declared.shape.Symbol as one_symbol;

use crate::shape::{Choice, Symbol};
use ut_base::Limit;

/// The most symbols of a tree.
const MAX_SYMBOLS: usize = 65_536;

/// The most members of one choice.
const MAX_MEMBERS: usize = 1_024;

/// The most defaults of one symbol.
const MAX_DEFAULTS: usize = 1_024;

/// A limit that is passed, and the whole count.
#[derive(Clone, Copy, Debug)]
pub struct Passed {
    pub what: Limit,
    pub count: u64,
}

/// The count, where it passes the limit.
fn past(what: Limit, limit: usize, count: usize) -> Option<Passed>
    ensures { result ≡ spec.past what limit count }
{
    if limit < count {
        Some(Passed {
            what,
            count: count as u64,
        })
    } else {
        None
    }
}

/// The number of symbols, where it passes its limit.
pub fn past_symbols(count: usize) -> Option<Passed>
    ensures { result ≡ spec.past Limit.Symbols spec.max_symbols count }
{
    past(Limit::Symbols, MAX_SYMBOLS, count)
}

/// The members of the first choice that has too many.
fn past_members(choices: &[Choice]) -> Option<Passed>
    ensures { result ≡ spec.first_past Limit.Members spec.max_members (map (λ (c : one_choice.Choice). length c.members) choices.now) }
{
    for choice in choices {
        if let Some(passed) = past(Limit::Members, MAX_MEMBERS, choice.members.len()) {
            return Some(passed);
        }
    }
    None
}

/// The defaults of the first symbol that has too many.
fn past_defaults(symbols: &[Symbol]) -> Option<Passed>
    ensures { result ≡ spec.first_past Limit.Defaults spec.max_defaults (map (λ (s : one_symbol.Symbol). length s.defaults) symbols.now) }
{
    for symbol in symbols {
        if let Some(passed) = past(Limit::Defaults, MAX_DEFAULTS, symbol.defaults.len()) {
            return Some(passed);
        }
    }
    None
}

/// The members of a choice, or else the defaults of a symbol, that pass their limit.
pub fn past_each(choices: &[Choice], symbols: &[Symbol]) -> Option<Passed>
    ensures { result ≡ spec.each_past choices.now symbols.now }
{
    past_members(choices).or(past_defaults(symbols))
}
