ghost use Rattle.std.specs.Prelude.{◌≡◌, ◌<◌, Some, length};
ghost use Rattle.ut_logic.specs.Trit.{rank};
ghost use Rattle.complete_conf.specs.Config.{by_lists, configuration_of, FitsTree};
ghost use Rattle.complete_conf.specs.Free as spec;

use crate::calculating::calculated;
use crate::choosing::{free_mode, member_value, picked_in};
use crate::config::Config;
use kconf_tree::Tree;
use ut_logic::Trit;

/// The value of a member of a choice without a user's setting.
fn free_member(tree: &Tree, config: &Config, choice: u32, member: u32) -> Trit
    ensures { rank result ≡ spec.free_by tree.now.shape (by_lists config.now) member (Some choice) }
{
    if choice < tree.choices() {
        let mode = free_mode(tree, config, choice);
        member_value(picked_in(tree, config, choice, mode), member)
    } else {
        Trit::N
    }
}

/// The value of a symbol without a user's setting: what calculation gives it under the configuration, or
/// for a member of a choice what the choice's rule gives it.
pub fn calc(tree: &Tree, config: &Config, sym: u32) -> Trit
    requires sym { sym < length tree.now.shape.symbols }
    requires fits { FitsTree tree.now.shape config.now }
    ensures value { rank result ≡ spec.free_value tree.now.shape (configuration_of tree.now.shape config.now) sym }
{
    match tree.member_of(sym) {
        None => calculated(tree, config, sym),
        Some(choice) => free_member(tree, config, choice, sym),
    }
}
