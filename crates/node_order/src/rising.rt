ghost use Rattle.std.specs.Prelude.{◌≡◌, ◌<◌, length, All};
ghost use Rattle.std.specs.Bool.{OnTrue};
ghost use Rattle.node_order.specs.Rising as spec;

use crate::graph::Graph;

/// The number of a node; 0 where it has none.
fn number_at(numbers: &[Option<u32>], node: u32) -> u32
    requires { node < length numbers.now }
    ensures { result ≡ spec.number_at numbers.now node }
{
    match numbers[node as usize] {
        Some(number) => number,
        None => 0,
    }
}

/// Whether each of the nodes has this number at least.
fn reach(numbers: &[Option<u32>], number: u32, nodes: &[u32]) -> bool
    requires { All (λ b. b < length numbers.now) nodes.now }
    ensures { OnTrue result (spec.Reach numbers.now number nodes.now) }
{
    for node in nodes {
        if number_at(numbers, *node) < number {
            return false;
        }
    }
    true
}

/// Whether each of the nodes has a higher number.
fn pass(numbers: &[Option<u32>], number: u32, nodes: &[u32]) -> bool
    requires { All (λ b. b < length numbers.now) nodes.now }
    ensures { OnTrue result (spec.Pass numbers.now number nodes.now) }
{
    for node in nodes {
        if number_at(numbers, *node) <= number {
            return false;
        }
    }
    true
}

/// Whether the numbers never fall along a reference.
pub fn never_fall(graph: &Graph, numbers: &[Option<u32>]) -> bool
    requires { length numbers.now ≡ length graph.now }
    ensures { OnTrue result (spec.NeverFall graph.now numbers.now) }
{
    for node in 0..graph.len() {
        if !reach(numbers, number_at(numbers, node), graph.refers(node)) {
            return false;
        }
    }
    true
}

/// Whether the numbers rise along each reference of a node.
pub fn rises_from(graph: &Graph, numbers: &[Option<u32>], node: u32) -> bool
    requires count { length numbers.now ≡ length graph.now }
    requires node { node < length graph.now }
    ensures { OnTrue result (spec.RisesFrom graph.now numbers.now node) }
{
    pass(numbers, number_at(numbers, node), graph.refers(node))
}
