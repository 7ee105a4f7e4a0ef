ghost use Rattle.std.specs.Prelude.{◌≡◌, ◌<◌, [], ◌∷◌, None, length, replicate, vec_len, All, IfOk, OnOk};
ghost use Rattle.std.specs.List.{flat_map};
ghost use Rattle.node_order.specs.Graph.{refers_of};
ghost use Rattle.node_order.specs.Layers.{AddsNew};
ghost use Rattle.node_order.specs.Walks.{AreDistances};

use crate::graph::Graph;
use std::alloc::{AllocError, Global};

/// For each node the least number of steps from `start` to it, or none where no walk leads there.
pub fn distances(alloc: Global, graph: &Graph, start: u32) -> Result<Vec<Option<u32>>, AllocError>
    requires { start < length graph.now }
    ensures { IfOk result (λ found. AreDistances graph.now start found.items) }
{
    let mut found = all_unknown(alloc, graph.len())?;
    found[start as usize] = Some(0);
    let mut layer = Vec::new(alloc);
    layer.push(start)?;
    let mut steps = 0;
    while !layer.is_empty() {
        layer = next_layer(alloc, graph, &mut found, layer.as_slice(), steps + 1)?;
        steps += 1;
    }
    Ok(found)
}

/// `count` nodes without a distance.
pub fn all_unknown(alloc: Global, count: u32) -> Result<Vec<Option<u32>>, AllocError>
    ensures { IfOk result (λ found. found.items ≡ replicate count None) }
{
    let mut found = Vec::with_capacity(alloc, count as usize)?;
    for i in 0..count {
        found.push(None)?;
    }
    Ok(found)
}

/// The next layer, `steps` away: the nodes that the layer refers to and that have no distance yet.
pub fn next_layer(
    alloc: Global,
    graph: &Graph,
    found: &mut Vec<Option<u32>>,
    layer: &[u32],
    steps: u32,
) -> Result<Vec<u32>, AllocError>
    requires count { vec_len found.old ≡ length graph.now }
    requires layer { All (λ node. node < length graph.now) layer.now }
    ensures { IfOk result (λ next. AddsNew found.old.items found.new.items [] next.items (flat_map (refers_of graph.now) layer.now) steps) }
{
    let mut next = Vec::new(alloc);
    for node in layer {
        add_new(found, &mut next, graph.refers(*node), steps)?;
    }
    Ok(next)
}

/// Sets the distance of each of the nodes that has none.
fn add_new(
    found: &mut Vec<Option<u32>>,
    next: &mut Vec<u32>,
    nodes: &[u32],
    steps: u32,
) -> Result<(), AllocError>
    requires { All (λ node. node < vec_len found.old) nodes.now }
    ensures { OnOk result (AddsNew found.old.items found.new.items next.old.items next.new.items nodes.now steps) }
{
    for node in nodes {
        add_one(found, next, *node, steps)?;
    }
    Ok(())
}

/// Sets the distance of the node if it has none.
pub fn add_one(
    found: &mut Vec<Option<u32>>,
    next: &mut Vec<u32>,
    node: u32,
    steps: u32,
) -> Result<(), AllocError>
    requires { node < vec_len found.old }
    ensures { OnOk result (AddsNew found.old.items found.new.items next.old.items next.new.items (node ∷ []) steps) }
{
    match found[node as usize] {
        Some(_) => Ok(()),
        None => {
            next.push(node)?;
            found[node as usize] = Some(steps);
            Ok(())
        }
    }
}
