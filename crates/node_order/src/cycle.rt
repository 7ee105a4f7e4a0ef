ghost use Rattle.std.specs.Prelude.{◌≡◌, ◌<◌, Some, length, IfOk};
ghost use Rattle.node_order.specs.Graph.{IsFirstCycle, IsReverse, refers_of};
ghost use Rattle.node_order.specs.Returns.{IsAway, IsLeastOf, Returns};
ghost use Rattle.node_order.specs.Searching.{AreOffCycles};
ghost use Rattle.node_order.specs.Walks.{AreDistancesTo, HasCycle, IsOnCycle};

use crate::distance::distances;
use crate::first_on_cycle::first_on_cycle;
use crate::graph::Graph;
use crate::nearest::{nearer, nearest};
use crate::reversed::reversed;
use crate::search::Mark;
use std::alloc::{AllocError, Global};

/// The first cycle of a graph that has one. No node that is marked as done lies on a cycle.
pub fn first_cycle(alloc: Global, graph: &Graph, marks: &[Mark]) -> Result<Vec<u32>, AllocError>
    requires count { length marks.now ≡ length graph.now }
    requires cycle { HasCycle graph.now }
    requires done { AreOffCycles graph.now marks.now }
    ensures { IfOk result (λ nodes. IsFirstCycle graph.now nodes.items) }
{
    let back = reversed(alloc, graph)?;
    let node = first_on_cycle(alloc, graph, &back, marks)?;
    least_cycle(alloc, graph, &back, node)
}

/// The least of the shortest cycles through a node that lies on one.
fn least_cycle(
    alloc: Global,
    graph: &Graph,
    back: &Graph,
    node: u32,
) -> Result<Vec<u32>, AllocError>
    requires back { IsReverse graph.now back.now }
    requires node { node < length graph.now }
    requires lies { IsOnCycle graph.now node }
    ensures { IfOk result (λ nodes. Returns graph.now node nodes.items) }
{
    let found = distances(alloc, back, node)?;
    match nearest(graph.refers(node), found.as_slice()) {
        Some(steps) => walk_back(alloc, graph, found.as_slice(), node, steps),
        None => unreachable!(),
    }
}

/// The least of the shortest cycles through a node, where the nearest node that it refers to is `steps` away
/// from it.
fn walk_back(
    alloc: Global,
    graph: &Graph,
    found: &[Option<u32>],
    node: u32,
    steps: u32,
) -> Result<Vec<u32>, AllocError>
    requires node { node < length graph.now }
    requires distances { AreDistancesTo graph.now node found.now }
    requires steps { IsLeastOf (IsAway (refers_of graph.now node) found.now) (Some steps) }
    ensures { IfOk result (λ nodes. Returns graph.now node nodes.items) }
{
    let mut nodes = Vec::new(alloc);
    nodes.push(node)?;
    let mut at = nearer(graph, found, node, steps);
    nodes.push(at)?;
    let mut left = steps;
    while left > 0 {
        left -= 1;
        at = nearer(graph, found, at, left);
        nodes.push(at)?;
    }
    Ok(nodes)
}
