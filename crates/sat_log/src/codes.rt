ghost use Rattle.std.specs.Prelude.{◌≡◌, ◌/◌, ◌^◌, ◌<◌, ◌≤◌, length};
ghost use Rattle.ut_logic.specs.Clauses.{negated};
ghost use Rattle.sat_log.specs.Codes.{code_of, literal_of, truth_of};

use crate::values::Value;
use ut_logic::Lit;

/// The number of a literal: twice its variable, and one more where it is positive.
pub fn code_of(lit: Lit) -> u32
    requires { lit.var < 2 ^ 31 }
    ensures { result ≡ code_of lit }
{
    let twice = lit.var as u32 * 2;
    if lit.positive { twice + 1 } else { twice }
}

/// The literal with a number.
pub fn literal_of(code: u32) -> Lit
    ensures { result ≡ literal_of code }
{
    Lit {
        var: u64::from(code / 2),
        positive: code % 2 == 1,
    }
}

/// What the literal with a number is set to.
pub fn truth_of(values: &[Value], code: u32) -> Value
    requires low { 2 ≤ code }
    requires high { code / 2 ≤ length values.now }
    ensures { result ≡ truth_of values.now code }
{
    match values[(code / 2 - 1) as usize] {
        Value::Unset => Value::Unset,
        Value::True => {
            if code % 2 == 1 {
                Value::True
            } else {
                Value::False
            }
        }
        Value::False => {
            if code % 2 == 1 {
                Value::False
            } else {
                Value::True
            }
        }
    }
}

/// The same variable's other literal.
pub fn opposite(lit: Lit) -> Lit
    ensures { result ≡ negated lit }
{
    Lit {
        var: lit.var,
        positive: !lit.positive,
    }
}
