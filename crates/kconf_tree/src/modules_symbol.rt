ghost use Rattle.std.specs.Prelude.{◌≡◌, ◌≤◌, ◌<◌, ◌^◌, length, IfSome};
ghost use Rattle.kconf_tree.specs.Gathered as spec;
ghost use Rattle.kconf_tree.specs.Modules.{modules_from};

use crate::shape::Symbol;
use crate::types::Types;
use kconf_entries::Kind;

/// Whether the symbol is bool or tristate, an untyped member of a choice included.
fn is_bool_or_tristate(symbol: &Symbol) -> bool
    ensures { result ≡ spec.is_bool_or_tristate symbol.now }
{
    match symbol.kind {
        Kind::Bool | Kind::Tristate => true,
        Kind::Untyped => symbol.member_of.is_some(),
        Kind::Str | Kind::Hex | Kind::Int => false,
    }
}

/// The number of the modules symbol: the first that is bool or tristate and has `modules`.
pub fn modules_among(types: &Types, symbols: &[Symbol]) -> Option<u32>
    requires count { length symbols.now ≡ length types.now }
    requires fits { length symbols.now < 2 ^ 32 }
    ensures value { result ≡ modules_from 0 types.now symbols.now }
    ensures within { IfSome result (λ k. k < length symbols.now) }
{
    for (number, symbol) in symbols.iter().enumerate() {
        if is_bool_or_tristate(symbol) && types.at(number).modules {
            return Some(number as u32);
        }
    }
    None
}
