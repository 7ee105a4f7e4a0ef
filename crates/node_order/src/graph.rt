ghost use Rattle.std.specs.Prelude.{◌≡◌, ◌<◌, [], ◌∷◌, ◌++◌, length, map, replicate, slice_set, All, IfOk, OnErr, OnOk};
ghost use Rattle.node_order.specs.Graph.{IsGraph, refers_of};

use std::alloc::{AllocError, Global};
use std::marker::Model;

/// Nodes numbered from 0, and for each node the nodes that it refers to.
#[derive(Drop)]
pub struct Graph {
    lists: Vec<Vec<u32>>,
}

impl Model for Graph {
    ghost use Rattle.std.specs.Prelude.{ℕ, List};

    ghost Value = { List (List ℕ) };

    ghost use Rattle.node_order.specs.GraphInside.{view_of};
    ghost use Rattle.node_order.specs.Graph.{IsGraph};

    ghost view = { view_of };

    ghost invariant = { λ g. IsGraph (view_of g) };
}

impl Graph {
    /// A graph of `count` nodes without references. The only error is out of memory.
    pub fn new(alloc: Global, count: u32) -> Result<Graph, AllocError>
        ensures { IfOk result (λ graph. graph ≡ replicate count []) }
    {
        let mut lists = Vec::with_capacity(alloc, count as usize)?;
        for i in 0..count {
            lists.push(Vec::new(alloc))?;
        }
        Ok(Graph { lists })
    }

    /// The graph with these references: for each node, the nodes that it refers to.
    pub fn of(lists: Vec<Vec<u32>>) -> Graph
        requires { IsGraph (map (λ list. list.items) lists.items) }
        ensures { result ≡ map (λ list. list.items) lists.items }
    {
        Graph { lists }
    }

    /// The number of nodes.
    pub fn len(&self) -> u32
        ensures count { result ≡ length self.now }
        ensures graph { IsGraph self.now }
    {
        self.lists.len() as u32
    }

    /// The nodes that the node refers to.
    pub fn refers(&self, node: u32) -> &[u32]
        requires { node < length self.now }
        ensures nodes { result.now ≡ refers_of self.now node }
        ensures within { All (λ to. to < length self.now) result.now }
    {
        self.lists[node as usize].as_slice()
    }

    /// Adds a reference. The only error is out of memory, and then nothing changes.
    pub fn add(&mut self, from: u32, to: u32) -> Result<(), AllocError>
        requires from { from < length self.old }
        requires to { to < length self.old }
        ensures ok { OnOk result (self.new ≡ slice_set self.old from (refers_of self.old from ++ to ∷ [])) }
        ensures err { OnErr result (self.new ≡ self.old) }
    {
        self.lists[from as usize].push(to)?;
        Ok(())
    }
}
