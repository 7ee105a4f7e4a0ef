ghost use Rattle.std.specs.Prelude.{◌≡◌, ◌<◌, ◌∷◌, [], length, All};
ghost use Rattle.ut_logic.specs.Trit.{rank};
ghost use Rattle.kconf_tree.specs.Valid.{IsValid};
ghost use Rattle.complete_conf.specs.Completion.{completed, with_choice, with_node, with_symbol};
ghost use Rattle.complete_conf.specs.Config.{by_lists, configuration_of, FitsTree, KeepsLengths};
ghost use Rattle.complete_conf.specs.Inner.{HaveValues, with_free_mode, with_picked};
ghost use Rattle.kconf_tree.specs.WellMade.{IsNodeOf, IsWellMade};
ghost use Rattle.complete_conf.specs.Parts.{part_of, AgreeOn, IsClosedPart, IsRest, IsRightPart};

use crate::calculating::calculated;
use crate::choosing::{free_mode, member_value, picked_in};
use crate::config::{Config, Known};
use kconf_tree::Tree;
use ut_logic::{Node, Trit};

/// Sets the value of a member, unless it is known.
fn complete_member(config: &mut Config, known: &Known, picked: Option<u32>, member: u32)
    ensures value { HaveValues config.old (member ∷ []) → by_lists config.new ≡ with_picked (part_of known.now) (by_lists config.old) picked (member ∷ []) }
    ensures lengths { KeepsLengths config.old config.new }
{
    if !known.symbol(member) && (member as usize) < config.values.len() {
        config.set_value(member, member_value(picked, member));
    }
}

/// Sets the values of the members that aren't known.
fn complete_members(config: &mut Config, known: &Known, picked: Option<u32>, members: &[u32])
    ensures value { HaveValues config.old members.now → by_lists config.new ≡ with_picked (part_of known.now) (by_lists config.old) picked members.now }
    ensures lengths { KeepsLengths config.old config.new }
{
    for member in members {
        complete_member(config, known, picked, *member);
    }
}

/// Sets the mode of a choice, unless it is known.
fn complete_mode(config: &mut Config, known: &Known, choice: u32, mode: Trit)
    requires { choice < length config.old.modes }
    ensures value { by_lists config.new ≡ with_free_mode (part_of known.now) (by_lists config.old) choice (rank mode) }
    ensures lengths { KeepsLengths config.old config.new }
{
    if !known.choice(choice) {
        config.set_mode(choice, mode);
    }
}

/// Sets the mode of a choice and the values of its members to those without a user's setting, unless known.
fn complete_choice(tree: &Tree, config: &mut Config, known: &Known, choice: u32)
    requires choice { choice < length tree.now.shape.choices }
    requires fits { FitsTree tree.now.shape config.old }
    ensures value { IsWellMade tree.now.shape → by_lists config.new ≡ with_choice tree.now.shape (part_of known.now) (by_lists config.old) choice }
    ensures lengths { KeepsLengths config.old config.new }
{
    let mode = free_mode(tree, config, choice);
    let picked = picked_in(tree, config, choice, mode);
    complete_mode(config, known, choice, mode);
    complete_members(
        config,
        known,
        picked,
        tree.choice_at(choice).members.as_slice(),
    );
}

/// Sets a symbol to its calculated value, unless it is a member or known.
fn complete_symbol(tree: &Tree, config: &mut Config, known: &Known, sym: u32)
    requires sym { sym < length tree.now.shape.symbols }
    requires fits { FitsTree tree.now.shape config.old }
    ensures value { by_lists config.new ≡ with_symbol tree.now.shape (part_of known.now) (by_lists config.old) sym }
    ensures lengths { KeepsLengths config.old config.new }
{
    match tree.member_of(sym) {
        Some(_) => {}
        None => {
            if !known.symbol(sym) {
                let value = calculated(tree, config, sym);
                config.set_value(sym, value);
            }
        }
    }
}

/// Sets a node of the order to what it has without a user's setting, unless it is known.
fn complete_node(tree: &Tree, config: &mut Config, known: &Known, node: Node)
    requires { FitsTree tree.now.shape config.old }
    ensures value { IsWellMade tree.now.shape → IsNodeOf tree.now.shape node → by_lists config.new ≡ with_node tree.now.shape (part_of known.now) (by_lists config.old) node }
    ensures lengths { KeepsLengths config.old config.new }
{
    match node {
        Node::Sym(sym) => {
            if sym < tree.symbols() {
                complete_symbol(tree, config, known, sym);
            }
        }
        Node::Choice(choice) => {
            if choice < tree.choices() {
                complete_choice(tree, config, known, choice);
            }
        }
        Node::Block { .. } | Node::State { .. } => {}
    }
}

/// Sets each of the nodes that isn't known to what it has without a user's setting.
fn complete_nodes(tree: &Tree, config: &mut Config, known: &Known, nodes: &[Node])
    requires made { IsWellMade tree.now.shape }
    requires within { All (IsNodeOf tree.now.shape) nodes.now }
    requires fits { FitsTree tree.now.shape config.old }
    ensures value { by_lists config.new ≡ completed tree.now.shape (part_of known.now) (by_lists config.old) nodes.now }
    ensures lengths { KeepsLengths config.old config.new }
{
    for node in nodes {
        complete_node(tree, config, known, *node);
    }
}

/// Completes a configuration: what is known stays, and every other symbol and choice has afterwards the value or mode
/// that it has without a user's setting under the completed configuration.
pub fn complete(tree: &Tree, config: &mut Config, known: &Known)
    requires fits { FitsTree tree.now.shape config.old }
    ensures kept { AgreeOn (part_of known.now) (configuration_of tree.now.shape config.old) (configuration_of tree.now.shape config.new) }
    ensures rest { IsRest tree.now.shape (part_of known.now) (configuration_of tree.now.shape config.new) }
    ensures valid { IsClosedPart tree.now.shape (part_of known.now) → IsRightPart tree.now.shape (configuration_of tree.now.shape config.old) (part_of known.now) → IsValid tree.now.shape (configuration_of tree.now.shape config.new) }
    ensures lengths { KeepsLengths config.old config.new }
{
    complete_nodes(tree, config, known, tree.order());
}
