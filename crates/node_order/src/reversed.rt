ghost use Rattle.std.specs.Prelude.{◌<◌, length, All, IfOk, OnOk};
ghost use Rattle.node_order.specs.Graph.{IsReverse};
ghost use Rattle.node_order.specs.Turning.{AddsEach};

use crate::graph::Graph;
use std::alloc::{AllocError, Global};

/// The graph with each reference reversed.
pub fn reversed(alloc: Global, graph: &Graph) -> Result<Graph, AllocError>
    ensures { IfOk result (λ back. IsReverse graph.now back) }
{
    let mut back = Graph::new(alloc, graph.len())?;
    for node in 0..graph.len() {
        add_back(&mut back, node, graph.refers(node))?;
    }
    Ok(back)
}

/// Adds a reference from each of the nodes to that node.
fn add_back(back: &mut Graph, node: u32, nodes: &[u32]) -> Result<(), AllocError>
    requires node { node < length back.old }
    requires nodes { All (λ from. from < length back.old) nodes.now }
    ensures { OnOk result (AddsEach back.old back.new node nodes.now) }
{
    for from in nodes {
        back.add(*from, node)?;
    }
    Ok(())
}
