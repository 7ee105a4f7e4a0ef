ghost use Rattle.std.specs.Prelude.{◌≡◌, ◌<◌, Some, length, All};
ghost use Rattle.node_order.specs.Graph.{refers_of};
ghost use Rattle.node_order.specs.Returns.{IsAt, IsAway, IsLeastOf, lesser_of};

use crate::graph::Graph;

/// The lesser of two optional numbers; where one is missing, the other.
fn lesser(a: Option<u32>, b: Option<u32>) -> Option<u32>
    ensures { result ≡ lesser_of a b }
{
    match (a, b) {
        (Some(x), Some(y)) => Some(x.min(y)),
        (Some(x), None) => Some(x),
        (None, y) => y,
    }
}

/// The least distance of the nodes, or none where no node has a distance.
pub fn nearest(nodes: &[u32], found: &[Option<u32>]) -> Option<u32>
    requires { All (λ node. node < length found.now) nodes.now }
    ensures { IsLeastOf (IsAway nodes.now found.now) result }
{
    let mut least = None;
    for node in nodes {
        least = lesser(least, found[*node as usize]);
    }
    least
}

/// The node, if this is its distance.
fn node_at(node: u32, distance: Option<u32>, steps: u32) -> Option<u32>
    ensures { IsLeastOf (λ x. (x ≡ node) × (distance ≡ Some steps)) result }
{
    match distance {
        Some(d) => { if d == steps { Some(node) } else { None } }
        None => None,
    }
}

/// The least of the nodes that have this distance.
fn least_at(nodes: &[u32], found: &[Option<u32>], steps: u32) -> Option<u32>
    requires { All (λ node. node < length found.now) nodes.now }
    ensures { IsLeastOf (IsAt nodes.now found.now steps) result }
{
    let mut least = None;
    for node in nodes {
        least = lesser(least, node_at(*node, found[*node as usize], steps));
    }
    least
}

/// The least of the nodes at this distance that the node refers to.
pub fn nearer(graph: &Graph, found: &[Option<u32>], node: u32, steps: u32) -> u32
    requires node { node < length graph.now }
    requires count { length found.now ≡ length graph.now }
    requires some { (next : _) × IsAt (refers_of graph.now node) found.now steps next }
    ensures { IsLeastOf (IsAt (refers_of graph.now node) found.now steps) (Some result) }
{
    match least_at(graph.refers(node), found, steps) {
        Some(next) => next,
        None => unreachable!(),
    }
}
