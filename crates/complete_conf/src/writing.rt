ghost use Rattle.std.specs.Prelude.{◌≡◌, ◌<◌, ◌==◌, not, length};
ghost use Rattle.std.specs.List.{list_any};
ghost use Rattle.kconf_entries.specs.declared.entries.DefaultOf as declared;
ghost use Rattle.kconf_tree.specs.Value as value;
ghost use Rattle.kconf_tree.specs.Properties as spec;
ghost use Rattle.complete_conf.specs.Config.{by_lists, configuration_of, FitsTree};

use crate::config::Config;
use crate::properties::visibility;
use crate::values::value_in;
use kconf_entries::{DefaultOf, Kind};
use kconf_tree::{Place, Tree};
use ut_logic::Trit;

/// Whether some default's condition isn't n.
fn some_default(tree: &Tree, config: &Config, defaults: &[DefaultOf]) -> bool
    ensures { result ≡ list_any (λ (d : declared.DefaultOf). not (value.value_of tree.now.shape (by_lists config.now) d.cond == 0)) defaults.now }
{
    for default in defaults {
        if value_in(tree, config, Place::Condition, &default.cond) != Trit::N {
            return true;
        }
    }
    false
}

/// Whether a string, hex or int symbol is written: it is visible, or some default's condition isn't n. No other symbol
/// is.
pub fn is_written(tree: &Tree, config: &Config, sym: u32) -> bool
    requires sym { sym < length tree.now.shape.symbols }
    requires fits { FitsTree tree.now.shape config.now }
    ensures { result ≡ spec.is_written tree.now.shape (configuration_of tree.now.shape config.now) sym }
{
    match tree.kind(sym) {
        Kind::Str | Kind::Hex | Kind::Int => {
            visibility(tree, config, sym) != Trit::N
                || some_default(tree, config, tree.symbol_at(sym).defaults.as_slice())
        }
        Kind::Bool | Kind::Tristate | Kind::Untyped => false,
    }
}
