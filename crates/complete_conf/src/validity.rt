ghost use Rattle.std.specs.Prelude.{◌≡◌, ◌<◌, ◌↔◌, ℕ, All, false, true, IsTrue, length, filter};
ghost use Rattle.std.specs.List.{list_all, list_any};
ghost use Rattle.ut_logic.specs.Trit.{rank};
ghost use Rattle.kconf_tree.specs.Shape as shape;
ghost use Rattle.kconf_tree.specs.Valid as spec;
ghost use Rattle.kconf_tree.specs.Right as test;
ghost use Rattle.kconf_tree.specs.Right.{IsRight};
ghost use Rattle.complete_conf.specs.Config.{by_lists, configuration_of, FitsTree};

use crate::calculating::is_right;
use crate::choosing::{can_be_m, can_be_y, lets_m, lets_y};
use crate::config::Config;
use crate::properties::choice_visibility;
use crate::values::has_modules;
use kconf_tree::{Counts, Tree};
use ut_logic::Trit;

/// Whether a symbol is right, or a member of a choice.
fn symbol_is_right(tree: &Tree, config: &Config, sym: u32) -> bool
    requires { sym < length tree.now.shape.symbols }
    ensures { IsTrue result ↔ (shape.is_member tree.now.shape sym ≡ false → IsRight tree.now.shape (by_lists config.now) sym) }
{
    match tree.member_of(sym) {
        None => is_right(tree, config, sym),
        Some(_) => true,
    }
}

/// Whether each symbol that is no member of a choice is right.
fn symbols_are_right(tree: &Tree, config: &Config) -> bool
    ensures { IsTrue result ↔ ((k : ℕ) → k < length tree.now.shape.symbols → shape.is_member tree.now.shape k ≡ false → IsRight tree.now.shape (by_lists config.now) k) }
{
    for sym in 0..tree.symbols() {
        if !symbol_is_right(tree, config, sym) {
            return false;
        }
    }
    true
}

/// Whether a choice allows its mode.
fn mode_is_allowed(counts: Counts, on: bool, optional: bool, visibility: Trit, mode: Trit) -> bool
    ensures { result ≡ spec.allows_mode counts on optional (rank visibility) (rank mode) }
{
    match mode {
        Trit::N => visibility == Trit::N || optional,
        Trit::M => on && lets_m(counts, visibility),
        Trit::Y => lets_y(counts, on, visibility),
    }
}

/// Whether a member keeps to a mode: it is n; or y or m, in that mode and where it can be.
fn member_keeps(tree: &Tree, config: &Config, mode: Trit, member: u32) -> bool
    requires { member < length tree.now.shape.symbols }
    ensures { result ≡ test.keeps_mode tree.now.shape (by_lists config.now) (rank mode) member }
{
    match config.value(member) {
        Trit::N => true,
        Trit::M => mode == Trit::M && can_be_m(tree, config, member),
        Trit::Y => mode == Trit::Y && can_be_y(tree, config, member),
    }
}

/// Whether each member does.
fn members_keep(tree: &Tree, config: &Config, mode: Trit, members: &[u32]) -> bool
    requires { All (λ k. k < length tree.now.shape.symbols) members.now }
    ensures { result ≡ list_all (test.keeps_mode tree.now.shape (by_lists config.now) (rank mode)) members.now }
{
    for member in members {
        if !member_keeps(tree, config, mode, *member) {
            return false;
        }
    }
    true
}

/// Whether some member can be y.
fn some_can_be_y(tree: &Tree, config: &Config, members: &[u32]) -> bool
    requires { All (λ k. k < length tree.now.shape.symbols) members.now }
    ensures { result ≡ list_any (spec.can_be_y tree.now.shape (by_lists config.now)) members.now }
{
    for member in members {
        if can_be_y(tree, config, *member) {
            return true;
        }
    }
    false
}

/// The number of members that are y.
fn count_y(config: &Config, members: &[u32]) -> usize
    ensures { result ≡ length (filter (spec.is_y (by_lists config.now)) members.now) }
{
    let mut count = 0;
    for member in members {
        if config.value(*member) == Trit::Y {
            count += 1;
        }
    }
    count
}

/// Whether in mode y, where some member can be y, exactly one is.
fn has_one_y(tree: &Tree, config: &Config, mode: Trit, members: &[u32]) -> bool
    requires { All (λ k. k < length tree.now.shape.symbols) members.now }
    ensures { result ≡ test.has_one_y tree.now.shape (by_lists config.now) (rank mode) members.now }
{
    if mode == Trit::Y && some_can_be_y(tree, config, members) {
        count_y(config, members) == 1
    } else {
        true
    }
}

/// Whether a choice keeps its rules.
fn choice_is_right(tree: &Tree, config: &Config, choice: u32) -> bool
    requires { choice < length tree.now.shape.choices }
    ensures { result ≡ test.is_right_choice tree.now.shape (by_lists config.now) choice }
{
    let mode = config.mode(choice);
    let counts = tree.choice_counts(choice);
    let on = has_modules(tree, config);
    let visibility = choice_visibility(tree, config, choice);
    let choice = tree.choice_at(choice);
    let members = choice.members.as_slice();
    mode_is_allowed(counts, on, choice.optional, visibility, mode)
        && (members_keep(tree, config, mode, members) && has_one_y(tree, config, mode, members))
}

/// Whether each choice keeps its rules.
fn choices_are_right(tree: &Tree, config: &Config) -> bool
    ensures { IsTrue result ↔ ((i : ℕ) → i < length tree.now.shape.choices → test.is_right_choice tree.now.shape (by_lists config.now) i ≡ true) }
{
    for choice in 0..tree.choices() {
        if !choice_is_right(tree, config, choice) {
            return false;
        }
    }
    true
}

/// Whether a configuration is valid: some user's setting gives each symbol its own value by calculation,
/// and each choice keeps its rules.
pub fn is_valid(tree: &Tree, config: &Config) -> bool
    requires fits { FitsTree tree.now.shape config.now }
    ensures { IsTrue result ↔ spec.IsValid tree.now.shape (configuration_of tree.now.shape config.now) }
{
    symbols_are_right(tree, config) && choices_are_right(tree, config)
}
