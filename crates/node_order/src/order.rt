ghost use Rattle.std.specs.Prelude.{◌≡◌, Err, IfOk};
ghost use Rattle.node_order.specs.Graph.{HasOrder, IsFirstCycle, IsOrder};

use crate::cycle::first_cycle;
use crate::graph::Graph;
use crate::search::{Search, Step};
use std::alloc::{AllocError, Global};

/// Why there is no order.
#[derive(Debug, Drop)]
pub enum GraphBad {
    /// The first cycle. It begins and ends with the least node that lies on a cycle, is a shortest cycle
    /// through that node, and is the least of these, compared node by node.
    Cycle(Vec<u32>),
    /// Out of memory.
    Oom,
}

impl From<AllocError> for GraphBad {
    ghost use Rattle.std.specs.Prelude.{◌≡◌};
    ghost use Rattle.node_order.specs.declared.order.GraphBad.TheVariants.{Oom};

    ghost from_gives = { λ _ bad. bad ≡ Oom };

    fn from(_: AllocError) -> GraphBad {
        GraphBad::Oom
    }
}

/// The nodes in an order in which each stands after all that it refers to, or the first cycle where there is
/// no such order. A run may also fail because memory runs out.
pub fn ordered(alloc: Global, graph: &Graph) -> Result<Vec<u32>, GraphBad>
    ensures order { IfOk result (λ nodes. IsOrder graph.now nodes.items) }
    ensures cycle { (nodes : _) → result ≡ Err (GraphBad.Cycle nodes) → IsFirstCycle graph.now nodes.items }
    ensures no_order { (nodes : _) → result ≡ Err (GraphBad.Cycle nodes) → ¬ HasOrder graph.now }
{
    let mut search = Search::new(alloc, graph)?;
    for root in 0..graph.len() {
        match search.visit(graph, root)? {
            Step::Goes => {}
            Step::Closes => {
                let nodes = first_cycle(alloc, graph, search.marks.as_slice())?;
                return Err(GraphBad::Cycle(nodes));
            }
        }
    }
    Ok(search.order)
}
