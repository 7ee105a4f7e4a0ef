ghost use Rattle.std.specs.Prelude.{◌≡◌, ◌<◌, All, length};
ghost use Rattle.std.specs.List.{find};
ghost use Rattle.ut_logic.specs.Trit.{rank};
ghost use Rattle.kconf_tree.specs.Shape as shape;
ghost use Rattle.kconf_tree.specs.Valid as valid;
ghost use Rattle.complete_conf.specs.Config.{by_lists};
ghost use Rattle.complete_conf.specs.Free as spec;

use crate::config::Config;
use crate::properties::{choice_visibility, visibility};
use crate::values::{has_modules, value_in};
use kconf_entries::SelectOf;
use kconf_tree::{Counts, Place, Tree};
use ut_logic::Trit;

/// The least mode that a choice allows.
pub fn free_mode(tree: &Tree, config: &Config, choice: u32) -> Trit
    requires { choice < length tree.now.shape.choices }
    ensures { rank result ≡ spec.free_mode tree.now.shape (by_lists config.now) choice }
{
    if choice_visibility(tree, config, choice) == Trit::N || tree.choice_at(choice).optional {
        return Trit::N;
    }
    match tree.choice_counts(choice) {
        Counts::Bool | Counts::Neither => Trit::Y,
        Counts::Tristate => {
            if has_modules(tree, config) {
                Trit::M
            } else {
                Trit::Y
            }
        }
    }
}

/// Whether what counts as this can be y at a visibility.
pub fn lets_y(counts: Counts, on: bool, visibility: Trit) -> bool
    ensures { result ≡ valid.lets_y counts on (rank visibility) }
{
    match counts {
        Counts::Bool | Counts::Neither => visibility != Trit::N,
        Counts::Tristate => {
            if on {
                visibility == Trit::Y
            } else {
                visibility != Trit::N
            }
        }
    }
}

/// Whether what counts as this can be m at a visibility.
pub fn lets_m(counts: Counts, visibility: Trit) -> bool
    ensures { result ≡ valid.lets_m counts (rank visibility) }
{
    match counts {
        Counts::Bool | Counts::Neither => false,
        Counts::Tristate => visibility != Trit::N,
    }
}

/// Whether a member can be y.
pub fn can_be_y(tree: &Tree, config: &Config, sym: u32) -> bool
    requires { sym < length tree.now.shape.symbols }
    ensures { result ≡ valid.can_be_y tree.now.shape (by_lists config.now) sym }
{
    let visible = visibility(tree, config, sym);
    lets_y(tree.counts_as(sym), has_modules(tree, config), visible)
}

/// Whether a member can be m.
pub fn can_be_m(tree: &Tree, config: &Config, sym: u32) -> bool
    requires { sym < length tree.now.shape.symbols }
    ensures { result ≡ valid.can_be_m tree.now.shape (by_lists config.now) sym }
{
    lets_m(tree.counts_as(sym), visibility(tree, config, sym))
}

/// Whether the optional number is this one.
fn is_the(option: Option<u32>, number: u32) -> bool
    ensures { result ≡ shape.is_the option number }
{
    match option {
        None => false,
        Some(other) => other == number,
    }
}

/// Whether a symbol is a member of the choice that can be y.
fn is_candidate(tree: &Tree, config: &Config, choice: u32, sym: u32) -> bool
    requires { sym < length tree.now.shape.symbols }
    ensures { result ≡ spec.is_candidate tree.now.shape (by_lists config.now) choice sym }
{
    is_the(tree.member_of(sym), choice) && can_be_y(tree, config, sym)
}

/// The first candidate that a default names whose condition isn't n.
fn named_candidate(tree: &Tree, config: &Config, choice: u32, defaults: &[SelectOf]) -> Option<u32>
    ensures { result ≡ find (spec.is_candidate tree.now.shape (by_lists config.now) choice) (spec.named_by_defaults tree.now.shape (by_lists config.now) defaults.now) }
{
    for default in defaults {
        if value_in(tree, config, Place::Condition, &default.cond) != Trit::N {
            if let Some(sym) = tree.symbol(default.target.text()) {
                if is_candidate(tree, config, choice, sym) {
                    return Some(sym);
                }
            }
        }
    }
    None
}

/// The first of the members that is a candidate.
fn member_candidate(tree: &Tree, config: &Config, choice: u32, members: &[u32]) -> Option<u32>
    requires { All (λ k. k < length tree.now.shape.symbols) members.now }
    ensures { result ≡ find (spec.is_candidate tree.now.shape (by_lists config.now) choice) members.now }
{
    for member in members {
        if is_candidate(tree, config, choice, *member) {
            return Some(*member);
        }
    }
    None
}

/// The first candidate that a default names, else the first member that is one.
fn candidate(tree: &Tree, config: &Config, choice: u32) -> Option<u32>
    requires { choice < length tree.now.shape.choices }
    ensures { result ≡ spec.candidate_of tree.now.shape (by_lists config.now) choice }
{
    let properties = tree.choice_at(choice);
    match named_candidate(tree, config, choice, properties.defaults.as_slice()) {
        Some(sym) => Some(sym),
        None => member_candidate(tree, config, choice, properties.members.as_slice()),
    }
}

/// The member that is y in this mode.
pub fn picked_in(tree: &Tree, config: &Config, choice: u32, mode: Trit) -> Option<u32>
    requires { choice < length tree.now.shape.choices }
    ensures { result ≡ spec.picked_at (rank mode) (spec.candidate_of tree.now.shape (by_lists config.now) choice) }
{
    match mode {
        Trit::N | Trit::M => None,
        Trit::Y => candidate(tree, config, choice),
    }
}

/// y for the member that is picked, n for every other.
pub fn member_value(picked: Option<u32>, member: u32) -> Trit
    ensures { rank result ≡ spec.picked_value picked member }
{
    if is_the(picked, member) {
        Trit::Y
    } else {
        Trit::N
    }
}
