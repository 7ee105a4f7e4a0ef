ghost use Rattle.std.specs.Prelude.{◌≡◌, ◌<◌, ◌↔◌, IsTrue, None, Some, length};
ghost use Rattle.ut_logic.specs.Trit.{rank};
ghost use Rattle.kconf_tree.specs.Valid as spec;
ghost use Rattle.complete_conf.specs.Config.{by_lists};
ghost use Rattle.kconf_tree.specs.Right.{is_settled, IsRight};

use crate::config::Config;
use crate::properties::{default_value, visibility};
use crate::selecting::reverse;
use crate::values::has_modules;
use kconf_tree::{Counts, Tree};
use ut_logic::{Trit, trit_and, trit_or};

/// What a value becomes by the type: y for m where m can't be.
fn promoted(counts: Counts, on: bool, value: Trit) -> Trit
    ensures { rank result ≡ spec.promoted counts on (rank value) }
{
    match counts {
        Counts::Bool => { if value == Trit::N { Trit::N } else { Trit::Y } }
        Counts::Tristate => {
            if on || value == Trit::N {
                value
            } else {
                Trit::Y
            }
        }
        Counts::Neither => Trit::N,
    }
}

/// The value that a symbol gets without a user's setting.
pub fn calculated(tree: &Tree, config: &Config, sym: u32) -> Trit
    requires { sym < length tree.now.shape.symbols }
    ensures { rank result ≡ spec.calculated_of tree.now.shape (by_lists config.now) None sym }
{
    let raised = trit_or(default_value(tree, config, sym), reverse(tree, config, sym));
    promoted(tree.counts_as(sym), has_modules(tree, config), raised)
}

/// What the calculation of a symbol's value reads.
#[derive(Clone, Copy, Debug)]
struct Inputs {
    counts: Counts,
    on: bool,
    visibility: Trit,
    reverse: Trit,
    default: Trit,
}

/// The value that these give where the user sets `value`.
fn set_to(inputs: Inputs, value: Trit) -> Trit
    ensures { rank result ≡ spec.calculate inputs.counts inputs.on (rank inputs.visibility) (rank inputs.reverse) (rank inputs.default) (Some (rank value)) }
{
    let base = if inputs.visibility == Trit::N {
        inputs.default
    } else {
        trit_and(value, inputs.visibility)
    };
    promoted(inputs.counts, inputs.on, trit_or(base, inputs.reverse))
}

/// The value that these give without a user's setting.
fn unset(inputs: Inputs) -> Trit
    ensures { rank result ≡ spec.calculate inputs.counts inputs.on (rank inputs.visibility) (rank inputs.reverse) (rank inputs.default) None }
{
    promoted(
        inputs.counts,
        inputs.on,
        trit_or(inputs.default, inputs.reverse),
    )
}

/// Whether these give the value without a setting, or with itself as the setting.
fn settles(inputs: Inputs, value: Trit) -> bool
    ensures { result ≡ is_settled inputs.counts inputs.on (rank inputs.visibility) (rank inputs.reverse) (rank inputs.default) (rank value) }
{
    unset(inputs) == value || set_to(inputs, value) == value
}

/// Whether some user's setting, or none, gives a symbol its own value.
pub fn is_right(tree: &Tree, config: &Config, sym: u32) -> bool
    requires { sym < length tree.now.shape.symbols }
    ensures { IsTrue result ↔ IsRight tree.now.shape (by_lists config.now) sym }
{
    let inputs = Inputs {
        counts: tree.counts_as(sym),
        on: has_modules(tree, config),
        visibility: visibility(tree, config, sym),
        reverse: reverse(tree, config, sym),
        default: default_value(tree, config, sym),
    };
    settles(inputs, config.value(sym))
}
