ghost use Rattle.std.specs.Prelude.{◌≡◌, ◌++◌, map, slice_index_or, IfOk, IfErr, OnOk};
ghost use Rattle.std.specs.List.{flat_map};
ghost use Rattle.ut_logic.specs.declared.node.Node.TheVariants as one;
ghost use Rattle.kconf_tree.specs.Orders.{IsOrder, IsRecursive, with_members, empty_choices};
ghost use Rattle.kconf_tree.specs.Links.{AreLinks};

use crate::bad::TreeBad;
use crate::links::Links;
use crate::parts::Parts;
use indexmap::IndexSet;
use node_order::{GraphBad, ordered};
use std::alloc::{AllocError, Global};
use ut_logic::{Node, Sequence};

/// Adds the nodes of symbols.
fn push_symbols(order: &mut Vec<Node>, symbols: &[u32]) -> Result<(), AllocError>
    ensures { OnOk result (order.new.items ≡ order.old.items ++ map (λ k. one.Sym k) symbols.now) }
{
    for symbol in symbols {
        order.push(Node::Sym(*symbol))?;
    }
    Ok(())
}

/// The node at a place, or symbol 0 where the place is after the last node.
fn node_at(nodes: &IndexSet<Node>, place: u32) -> Node
    ensures { result ≡ slice_index_or nodes.now.keys place (one.Sym 0) }
{
    match nodes.get_index(place as usize) {
        Some(node) => *node,
        None => Node::Sym(0),
    }
}

/// The nodes at places.
fn nodes_at(alloc: Global, nodes: &IndexSet<Node>, places: &[u32]) -> Result<Vec<Node>, AllocError>
    ensures { IfOk result (λ v. v.items ≡ map (λ k. slice_index_or nodes.now.keys k (one.Sym 0)) places.now) }
{
    let mut list = Vec::with_capacity(alloc, places.len())?;
    for place in places {
        list.push(node_at(nodes, *place))?;
    }
    Ok(list)
}

impl Parts {
    /// Adds a node, and its members beside a choice.
    fn push_node(&self, order: &mut Vec<Node>, node: Node) -> Result<(), AllocError>
        ensures { OnOk result (order.new.items ≡ order.old.items ++ with_members self.now node) }
    {
        order.push(node)?;
        match node {
            Node::Choice(choice) => {
                if choice < self.choices() {
                    push_symbols(order, self.choice_at(choice).members.as_slice())
                } else {
                    Ok(())
                }
            }
            Node::Sym(_) | Node::Block { .. } | Node::State { .. } => Ok(()),
        }
    }

    /// Adds the nodes at places, members beside their choice.
    fn push_nodes(
        &self,
        order: &mut Vec<Node>,
        nodes: &IndexSet<Node>,
        places: &[u32],
    ) -> Result<(), AllocError>
        ensures { OnOk result (order.new.items ≡ order.old.items ++ flat_map (λ k. with_members self.now (slice_index_or nodes.now.keys k (one.Sym 0))) places.now) }
    {
        for place in places {
            self.push_node(order, node_at(nodes, *place))?;
        }
        Ok(())
    }

    /// Adds the choices without members.
    fn push_empty(&self, order: &mut Vec<Node>) -> Result<(), AllocError>
        ensures { OnOk result (order.new.items ≡ order.old.items ++ empty_choices 0 self.now.choices) }
    {
        for choice in 0..self.choices() {
            if self.choice_at(choice).members.is_empty() {
                order.push(Node::Choice(choice))?;
            }
        }
        Ok(())
    }

    /// The nodes at places in their order, and then the choices without members.
    fn listed(
        &self,
        alloc: Global,
        nodes: &IndexSet<Node>,
        places: &[u32],
    ) -> Result<Vec<Node>, AllocError>
        ensures { IfOk result (λ v. v.items ≡ flat_map (λ k. with_members self.now (slice_index_or nodes.now.keys k (one.Sym 0))) places.now ++ empty_choices 0 self.now.choices) }
    {
        let mut order = Vec::new(alloc);
        self.push_nodes(&mut order, nodes, places)?;
        self.push_empty(&mut order)?;
        Ok(order)
    }

    /// An order in which each symbol and choice stands after all that it refers to, or the first cycle.
    pub(crate) fn find_order(&self, alloc: Global, links: &Links) -> Result<Vec<Node>, TreeBad>
        requires { AreLinks self.now links.now }
        ensures order { IfOk result (λ order. IsOrder self.now order.items) }
        ensures cycle { IfErr result (IsRecursive self.now) }
    {
        let _count = self.symbols();
        let found = self.node_lists(alloc, links)?;
        let graph = self.graph(alloc, &found)?;
        match ordered(alloc, &graph) {
            Ok(places) => Ok(self.listed(alloc, &found.nodes, places.as_slice())?),
            Err(GraphBad::Cycle(places)) => {
                let cycle = nodes_at(alloc, &found.nodes, places.as_slice())?;
                Err(TreeBad::Recursive {
                    cycle: Sequence::from_vec(cycle),
                })
            }
            Err(GraphBad::Oom) => Err(TreeBad::Oom),
        }
    }
}
