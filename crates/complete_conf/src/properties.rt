ghost use Rattle.std.specs.Prelude.{◌≡◌, ◌<◌, length};
ghost use Rattle.ut_logic.specs.Trit.{rank};
ghost use Rattle.kconf_tree.specs.Properties as spec;
ghost use Rattle.complete_conf.specs.Config.{by_lists};

use crate::config::Config;
use crate::selecting::implied;
use crate::values::{greatest_of, value_in};
use kconf_entries::DefaultOf;
use kconf_tree::{Place, Tree};
use ut_logic::{Trit, trit_and, trit_or};

/// The visibility of a symbol.
pub fn visibility(tree: &Tree, config: &Config, sym: u32) -> Trit
    requires { sym < length tree.now.shape.symbols }
    ensures { rank result ≡ spec.visibility_of tree.now.shape (by_lists config.now) sym }
{
    let prompts = &tree.symbol_at(sym).prompts;
    greatest_of(tree, config, Place::Condition, prompts.as_slice())
}

/// The visibility of a choice.
pub fn choice_visibility(tree: &Tree, config: &Config, choice: u32) -> Trit
    requires { choice < length tree.now.shape.choices }
    ensures { rank result ≡ spec.choice_visibility_of tree.now.shape (by_lists config.now) choice }
{
    let prompts = &tree.choice_at(choice).prompts;
    greatest_of(tree, config, Place::Condition, prompts.as_slice())
}

/// The value of the first default whose condition isn't n.
fn first_default(tree: &Tree, config: &Config, defaults: &[DefaultOf]) -> Trit
    ensures { rank result ≡ spec.first_default tree.now.shape (by_lists config.now) defaults.now }
{
    for default in defaults {
        let cond = value_in(tree, config, Place::Condition, &default.cond);
        if cond != Trit::N {
            return trit_and(value_in(tree, config, Place::Value, &default.value), cond);
        }
    }
    Trit::N
}

/// The direct dependency of a symbol.
fn direct(tree: &Tree, config: &Config, sym: u32) -> Trit
    requires { sym < length tree.now.shape.symbols }
    ensures { rank result ≡ spec.direct_of tree.now.shape (by_lists config.now) sym }
{
    let places = &tree.symbol_at(sym).places;
    greatest_of(tree, config, Place::Condition, places.as_slice())
}

/// The default of a symbol, which gives way where it is implied.
pub fn default_value(tree: &Tree, config: &Config, sym: u32) -> Trit
    requires { sym < length tree.now.shape.symbols }
    ensures { rank result ≡ spec.default_of tree.now.shape (by_lists config.now) sym }
{
    let default = first_default(tree, config, tree.symbol_at(sym).defaults.as_slice());
    let implied = implied(tree, config, sym);
    if implied == Trit::N {
        default
    } else {
        trit_and(direct(tree, config, sym), trit_or(default, implied))
    }
}
