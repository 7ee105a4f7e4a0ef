ghost use Rattle.std.specs.Prelude.{◌≡◌};
ghost use Rattle.ut_logic.specs.Trit.{rank};
ghost use Rattle.kconf_entries.specs.Written.{comparison_text};
ghost use Rattle.kconf_tree.specs.Value as spec;
ghost use Rattle.complete_conf.specs.Config.{by_lists};
ghost use Rattle.complete_conf.specs.Inner.{truth_of};

use crate::config::Config;
use kconf_entries::{Side, Sign};
use kconf_tree::Tree;
use ut_logic::Trit;

/// y where the outer condition with this number is true, else n.
fn truth(config: &Config, number: Option<u64>) -> Trit
    ensures { rank result ≡ truth_of (by_lists config.now) number }
{
    match number {
        None => Trit::N,
        Some(number) => {
            if config.outer(number) {
                Trit::Y
            } else {
                Trit::N
            }
        }
    }
}

/// The value of an outer condition.
pub fn outer_value(tree: &Tree, config: &Config, text: &str) -> Trit
    ensures { rank result ≡ spec.outer_value tree.now.shape (by_lists config.now) text.now }
{
    truth(config, tree.outer_number(text))
}

/// The value of a comparison that is an outer condition.
pub fn comparison_value(tree: &Tree, config: &Config, left: &Side, sign: Sign, right: &Side) -> Trit
    ensures { rank result ≡ spec.outer_value tree.now.shape (by_lists config.now) (comparison_text left.now sign right.now) }
{
    truth(config, tree.comparison_number(left, sign, right))
}
