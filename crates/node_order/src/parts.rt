ghost use Rattle.std.specs.Prelude.{◌≡◌, ◌<◌, length, vec_len, All, IfOk, OnOk};

use crate::distance::{add_one, all_unknown, next_layer};
use crate::graph::Graph;
use crate::leaving::left_in_order;
use std::alloc::{AllocError, Global};

/// Gives a number to the node and to each from which a walk leads to it, but for those that have one.
fn number_part(
    alloc: Global,
    back: &Graph,
    numbers: &mut Vec<Option<u32>>,
    node: u32,
    number: u32,
) -> Result<(), AllocError>
    requires count { vec_len numbers.old ≡ length back.now }
    requires node { node < length back.now }
    ensures { OnOk result (vec_len numbers.new ≡ length back.now) }
{
    let mut layer = Vec::new(alloc);
    add_one(numbers, &mut layer, node, number)?;
    while !layer.is_empty() {
        layer = next_layer(alloc, back, numbers, layer.as_slice(), number)?;
    }
    Ok(())
}

/// Numbers of the parts of a graph in each of which every node leads to every other: a part that refers to another
/// has the lower number.
///
/// That they are so is no clause: who uses them tests what is needed of them.
pub fn part_numbers(
    alloc: Global,
    graph: &Graph,
    back: &Graph,
) -> Result<Vec<Option<u32>>, AllocError>
    requires { length back.now ≡ length graph.now }
    ensures { IfOk result (λ numbers. length numbers.items ≡ length graph.now) }
{
    let mut numbers = all_unknown(alloc, graph.len())?;
    let mut left = left_in_order(alloc, graph)?;
    let mut number: u32 = 0;
    while let Some(node) = left.pop() {
        number_part(alloc, back, &mut numbers, node, number)?;
        number = number.saturating_add(1);
    }
    Ok(numbers)
}
