ghost use Rattle.std.specs.Prelude.{◌≡◌, ◌<◌, ◌↔◌, length, IfOk, IsTrue};
ghost use Rattle.node_order.specs.Graph.{IsReverse};
ghost use Rattle.node_order.specs.Searching.{AreOffCycles};
ghost use Rattle.node_order.specs.Walks.{HasCycle, IsFirstOnCycle, IsOnCycle};

use crate::distance::distances;
use crate::graph::Graph;
use crate::nearest::nearest;
use crate::parts::part_numbers;
use crate::rising::{never_fall, rises_from};
use crate::search::Mark;
use std::alloc::{AllocError, Global};

/// Whether a node with this mark is done.
fn is_done(mark: Mark) -> bool
    ensures { IsTrue result ↔ (mark ≡ Mark.Done) }
{
    match mark {
        Mark::Done => true,
        Mark::New | Mark::Open => false,
    }
}

/// Whether a node lies on a cycle: whether something that it refers to leads back to it.
fn lies_on_cycle(alloc: Global, graph: &Graph, back: &Graph, node: u32) -> Result<bool, AllocError>
    requires back { IsReverse graph.now back.now }
    requires node { node < length graph.now }
    ensures { IfOk result (λ lies. IsTrue lies ↔ IsOnCycle graph.now node) }
{
    let found = distances(alloc, back, node)?;
    match nearest(graph.refers(node), found.as_slice()) {
        Some(_) => Ok(true),
        None => Ok(false),
    }
}

/// The least node that lies on a cycle, in a graph that has one. No node that is marked as done lies on a cycle, nor
/// does one whose part refers to other parts alone. Of the others each is tried in turn, and the first lies on one.
pub fn first_on_cycle(
    alloc: Global,
    graph: &Graph,
    back: &Graph,
    marks: &[Mark],
) -> Result<u32, AllocError>
    requires back { IsReverse graph.now back.now }
    requires count { length marks.now ≡ length graph.now }
    requires cycle { HasCycle graph.now }
    requires done { AreOffCycles graph.now marks.now }
    ensures { IfOk result (IsFirstOnCycle graph.now) }
{
    let numbers = part_numbers(alloc, graph, back)?;
    let never_falls = never_fall(graph, numbers.as_slice());
    for node in 0..graph.len() {
        if is_done(marks[node as usize]) {
            continue;
        }
        if never_falls && rises_from(graph, numbers.as_slice(), node) {
            continue;
        }
        if lies_on_cycle(alloc, graph, back, node)? {
            return Ok(node);
        }
    }
    unreachable!()
}
