ghost use Rattle.std.specs.Prelude.{◌≡◌, ◌++◌, IfOk, OnOk};
ghost use Rattle.std.specs.String.{string_bytes};
ghost use Rattle.kconf_entries.specs.Written as spec;

use crate::expr::{Side, Sign};
use std::alloc::{AllocError, Global};
use ut_logic::{Text, Trit};

/// A constant as it is written.
pub fn trit_text(trit: Trit) -> &'static str
    ensures { result.now ≡ spec.trit_text trit }
{
    match trit {
        Trit::N => "n",
        Trit::M => "m",
        Trit::Y => "y",
    }
}

/// A sign as it is written.
pub fn sign_text(sign: Sign) -> &'static str
    ensures { result.now ≡ spec.sign_text sign }
{
    match sign {
        Sign::Same => "=",
        Sign::Differ => "!=",
        Sign::Less => "<",
        Sign::More => ">",
        Sign::LessSame => "<=",
        Sign::MoreSame => ">=",
    }
}

/// Writes a side as it stands in an outer condition.
fn push_side(text: &mut String, side: &Side) -> Result<(), AllocError>
    ensures { OnOk result (string_bytes text.new ≡ string_bytes text.old ++ spec.side_text side.now) }
{
    match side {
        Side::Const(trit) => text.push_str(trit_text(*trit)),
        Side::Name(name) => text.push_str(name.text()),
        Side::Literal(literal) => text.push_str(literal.text()),
        Side::Quoted(quoted) => {
            text.push_str("\"")?;
            text.push_str(quoted.text())?;
            text.push_str("\"")
        }
    }
}

/// The text of a comparison that is an outer condition. The only error is want of memory.
pub fn comparison_text(
    alloc: Global,
    left: &Side,
    sign: Sign,
    right: &Side,
) -> Result<Text, AllocError>
    ensures { IfOk result (λ t. t ≡ spec.comparison_text left.now sign right.now) }
{
    let mut text = String::new(alloc);
    push_side(&mut text, left)?;
    text.push_str(" ")?;
    text.push_str(sign_text(sign))?;
    text.push_str(" ")?;
    push_side(&mut text, right)?;
    Text::new(alloc, text.as_str())
}
