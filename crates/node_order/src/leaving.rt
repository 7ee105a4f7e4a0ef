ghost use Rattle.std.specs.Prelude.{◌≡◌, ◌<◌, ◌++◌, length, map, All, IfOk, OnOk};
ghost use Rattle.node_order.specs.Leaving.{node_in, IsLeaving, TakesTurn};

use crate::graph::Graph;
use crate::search::{Mark, new_marks};
use std::alloc::{AllocError, Global};

/// What a search does next: it comes to a node, or leaves it.
#[derive(Clone, Copy)]
enum Turn {
    Comes(u32),
    Leaves(u32),
}

/// A search along all references: which nodes are met, the turns that are left, the last one first, and the nodes
/// that it has left.
#[derive(Drop)]
struct Leaving {
    marks: Vec<Mark>,
    turns: Vec<Turn>,
    left: Vec<u32>,
}

/// Adds that the search comes to each of the nodes.
fn add_each(turns: &mut Vec<Turn>, nodes: &[u32]) -> Result<(), AllocError>
    ensures { OnOk result (turns.new.items ≡ turns.old.items ++ map Turn.Comes nodes.now) }
{
    for node in nodes {
        turns.push(Turn::Comes(*node))?;
    }
    Ok(())
}

impl Leaving {
    /// The search before its first turn: it is to come to each node.
    fn new(alloc: Global, graph: &Graph) -> Result<Leaving, AllocError>
        ensures { IfOk result (IsLeaving graph.now) }
    {
        let mut turns = Vec::with_capacity(alloc, graph.len() as usize)?;
        for node in 0..graph.len() {
            turns.push(Turn::Comes(node))?;
        }
        Ok(Leaving {
            marks: new_marks(alloc, graph.len())?,
            turns,
            left: Vec::new(alloc),
        })
    }

    /// Comes to a node: where it is met for the first time, the search is to come to all that it refers to, and then
    /// to leave it.
    fn come(&mut self, graph: &Graph, node: u32) -> Result<(), AllocError>
        requires leaving { IsLeaving graph.now self.old }
        requires node { node < length graph.now }
        ensures { OnOk result (TakesTurn graph.now self.old self.new) }
    {
        match self.marks[node as usize] {
            Mark::Open | Mark::Done => Ok(()),
            Mark::New => {
                self.marks[node as usize] = Mark::Open;
                self.turns.push(Turn::Leaves(node))?;
                add_each(&mut self.turns, graph.refers(node))
            }
        }
    }

    /// Takes a turn that was the last one of the list.
    fn take(&mut self, graph: &Graph, turn: Turn) -> Result<(), AllocError>
        requires leaving { IsLeaving graph.now self.old }
        requires turn { node_in turn < length graph.now }
        ensures { OnOk result (TakesTurn graph.now self.old self.new) }
    {
        match turn {
            Turn::Comes(node) => self.come(graph, node),
            Turn::Leaves(node) => {
                self.left.push(node)?;
                Ok(())
            }
        }
    }

    /// Takes all turns that are left.
    fn take_all(&mut self, graph: &Graph) -> Result<(), AllocError>
        requires { IsLeaving graph.now self.old }
        ensures { OnOk result (IsLeaving graph.now self.new) }
    {
        while let Some(turn) = self.turns.pop() {
            self.take(graph, turn)?;
        }
        Ok(())
    }
}

/// The nodes in the order in which a search along all references leaves them.
pub fn left_in_order(alloc: Global, graph: &Graph) -> Result<Vec<u32>, AllocError>
    ensures { IfOk result (λ nodes. All (λ a. a < length graph.now) nodes.items) }
{
    let mut search = Leaving::new(alloc, graph)?;
    search.take_all(graph)?;
    Ok(search.left)
}
