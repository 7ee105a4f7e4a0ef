ghost use Rattle.std.specs.Prelude.{◌≡◌, ◌<◌, [], false, length, slice_index_or, OnOk};
ghost use Rattle.ut_logic.specs.declared.node.Node as declared;
ghost use Rattle.std.specs.List.{flat_map};
ghost use Rattle.model_slice.specs.Found.{has, with_one, added};
ghost use Rattle.model_slice.specs.Met.{AreNoted};
ghost use Rattle.model_slice.specs.Met as spec;

use crate::room::SymbolRoom;
use indexmap::IndexSet;
use std::alloc::{AllocError, Global};
use ut_logic::Node;

/// The nodes that a search has met, each once, in the order in which it met them. Symbols for which there is
/// room are noted there, and all other nodes in a set.
#[derive(Drop)]
pub struct Met {
    pub nodes: Vec<Node>,
    pub others: IndexSet<Node>,
}

impl Met {
    /// No nodes.
    pub fn new(alloc: Global) -> Met
        ensures nodes { result.nodes.items ≡ [] }
        ensures others { result.others.keys ≡ [] }
    {
        Met {
            nodes: Vec::new(alloc),
            others: IndexSet::new(alloc),
        }
    }

    /// The nodes.
    pub fn into_nodes(self) -> Vec<Node>
        ensures { result.items ≡ self.nodes.items }
    {
        let Met { nodes, others: _ } = self;
        nodes
    }
}

/// Adds those of all of the lists that are new, at the end.
pub fn add_each(met: &mut Met, room: &mut SymbolRoom, each: &[&[Node]]) -> Result<(), AllocError>
    requires { AreNoted met.old.nodes.items room.old met.old.others.keys }
    ensures added { OnOk result (met.new.nodes.items ≡ added met.old.nodes.items (flat_map (λ s. s.now) each.now)) }
    ensures noted { OnOk result (AreNoted met.new.nodes.items room.new met.new.others.keys) }
{
    for more in each {
        add(met, room, more)?;
    }
    Ok(())
}

/// Adds those that are new, at the end.
pub fn add(met: &mut Met, room: &mut SymbolRoom, more: &[Node]) -> Result<(), AllocError>
    requires { AreNoted met.old.nodes.items room.old met.old.others.keys }
    ensures added { OnOk result (met.new.nodes.items ≡ added met.old.nodes.items more.now) }
    ensures noted { OnOk result (AreNoted met.new.nodes.items room.new met.new.others.keys) }
{
    for node in more {
        add_one(met, room, *node)?;
    }
    Ok(())
}

/// Adds a node at the end if it is new.
fn add_one(met: &mut Met, room: &mut SymbolRoom, node: Node) -> Result<(), AllocError>
    requires { AreNoted met.old.nodes.items room.old met.old.others.keys }
    ensures added { OnOk result (met.new.nodes.items ≡ with_one met.old.nodes.items node) }
    ensures noted { OnOk result (AreNoted met.new.nodes.items room.new met.new.others.keys) }
{
    if is_met(met, room, node) {
        Ok(())
    } else {
        add_new(met, room, node)
    }
}

/// Whether the node is met.
fn is_met(met: &Met, room: &SymbolRoom, node: Node) -> bool
    requires { AreNoted met.now.nodes.items room.now met.now.others.keys }
    ensures { result ≡ has met.now.nodes.items node }
{
    match number_in(room, node) {
        Some(sym) => is_at(&met.nodes, room.place(sym), node),
        None => met.others.contains(&node),
    }
}

/// Adds a node that is new.
fn add_new(met: &mut Met, room: &mut SymbolRoom, node: Node) -> Result<(), AllocError>
    requires noted { AreNoted met.old.nodes.items room.old met.old.others.keys }
    requires new { has met.old.nodes.items node ≡ false }
    ensures added { OnOk result (met.new.nodes.items ≡ with_one met.old.nodes.items node) }
    ensures noted { OnOk result (AreNoted met.new.nodes.items room.new met.new.others.keys) }
{
    let place = met.nodes.len();
    met.nodes.push(node)?;
    match number_in(room, node) {
        Some(sym) => {
            room.note(sym, place);
            Ok(())
        }
        None => {
            met.others.insert(node)?;
            Ok(())
        }
    }
}

/// The number of the node if it is a symbol for which there is room.
fn number_in(room: &SymbolRoom, node: Node) -> Option<u32>
    ensures { result ≡ spec.number_in room.now node }
{
    match node {
        Node::Sym(sym) => {
            if (sym as usize) < room.len() {
                Some(sym)
            } else {
                None
            }
        }
        Node::Choice(_) => None,
        Node::Block { .. } => None,
        Node::State { .. } => None,
    }
}

/// Whether the node stands at the place.
fn is_at(nodes: &[Node], place: usize, node: Node) -> bool
    ensures { result ≡ spec.is_at nodes.now place node }
{
    place < nodes.len() && node_at(nodes, place) == node
}

/// The node at the place.
fn node_at(nodes: &[Node], place: usize) -> Node
    requires { place < length nodes.now }
    ensures { (d : declared.Node) → slice_index_or nodes.now place d ≡ result }
{
    nodes[place]
}
