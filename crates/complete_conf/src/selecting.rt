ghost use Rattle.std.specs.Prelude.{◌≡◌, ◌<◌, length, map, All};
ghost use Rattle.ut_logic.specs.Trit.{rank};
ghost use Rattle.kconf_tree.specs.Value as value;
ghost use Rattle.kconf_tree.specs.Properties as spec;
ghost use Rattle.kconf_tree.specs.Shape.{IsSelector, IsImplier, selecting_of, implying_of};
ghost use Rattle.complete_conf.specs.Config.{by_lists};

use crate::config::Config;
use crate::values::{own_value, value_in};
use kconf_tree::{Place, Selector, Tree};
use ut_logic::{Trit, trit_and, trit_or};

/// The value that a select raises its target to.
fn selected(tree: &Tree, config: &Config, selector: Selector) -> Trit
    requires { IsSelector tree.now.shape selector }
    ensures { rank result ≡ spec.selected_by tree.now.shape (by_lists config.now) (selecting_of tree.now.shape selector) }
{
    let condition = tree.select_condition(selector);
    trit_and(
        own_value(tree, config, selector.by),
        value_in(tree, config, Place::Condition, condition),
    )
}

/// The value that selects together raise their target to.
fn raised(tree: &Tree, config: &Config, selectors: &[Selector]) -> Trit
    requires { All (IsSelector tree.now.shape) selectors.now }
    ensures { rank result ≡ value.greatest (map (λ s. spec.selected_by tree.now.shape (by_lists config.now) (selecting_of tree.now.shape s)) selectors.now) }
{
    let mut greatest = Trit::N;
    for selector in selectors {
        greatest = trit_or(greatest, selected(tree, config, *selector));
    }
    greatest
}

/// The reverse dependency of a symbol.
pub fn reverse(tree: &Tree, config: &Config, sym: u32) -> Trit
    requires { sym < length tree.now.shape.symbols }
    ensures { rank result ≡ spec.reverse_of tree.now.shape (by_lists config.now) sym }
{
    raised(tree, config, tree.selectors(sym))
}

/// The value that an imply gives its target.
fn implied_by(tree: &Tree, config: &Config, implier: Selector) -> Trit
    requires { IsImplier tree.now.shape implier }
    ensures { rank result ≡ spec.selected_by tree.now.shape (by_lists config.now) (implying_of tree.now.shape implier) }
{
    let condition = tree.imply_condition(implier);
    trit_and(
        own_value(tree, config, implier.by),
        value_in(tree, config, Place::Condition, condition),
    )
}

/// The value that implies together give their target.
fn implied_each(tree: &Tree, config: &Config, impliers: &[Selector]) -> Trit
    requires { All (IsImplier tree.now.shape) impliers.now }
    ensures { rank result ≡ value.greatest (map (λ s. spec.selected_by tree.now.shape (by_lists config.now) (implying_of tree.now.shape s)) impliers.now) }
{
    let mut greatest = Trit::N;
    for implier in impliers {
        greatest = trit_or(greatest, implied_by(tree, config, *implier));
    }
    greatest
}

/// The weak reverse dependency of a symbol: how far it is implied.
pub fn implied(tree: &Tree, config: &Config, sym: u32) -> Trit
    requires { sym < length tree.now.shape.symbols }
    ensures { rank result ≡ spec.implied_of tree.now.shape (by_lists config.now) sym }
{
    implied_each(tree, config, tree.impliers(sym))
}
