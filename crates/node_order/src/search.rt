ghost use Rattle.std.specs.Prelude.{◌≡◌, ◌<◌, [], ◌∷◌, ◌++◌, length, replicate, slice_set, vec_len, IfOk, OnOk};
ghost use Rattle.node_order.specs.Searching.{Advances, FindsCycle, IsSearch, IsSearching, MatchStep, Visits, path_of};

use crate::graph::Graph;
use std::alloc::{AllocError, Global};

/// How far the search has come with a node.
#[derive(Clone, Copy)]
pub enum Mark {
    /// Not reached yet.
    New,
    /// On the path.
    Open,
    /// In the order.
    Done,
}

/// A node on the path, and how many of its references have been followed.
#[derive(Clone, Copy)]
pub struct Visit {
    pub node: u32,
    pub next: usize,
}

/// The outcome of a step: the search goes on, or the reference closes a cycle.
#[derive(Clone, Copy)]
pub enum Step {
    Goes,
    Closes,
}

/// A depth-first search along the references: the marks of the nodes, the path to the current node, and the
/// order so far.
#[derive(Drop)]
pub struct Search {
    pub marks: Vec<Mark>,
    pub path: Vec<Visit>,
    pub order: Vec<u32>,
}

/// `count` marks of new nodes.
pub fn new_marks(alloc: Global, count: u32) -> Result<Vec<Mark>, AllocError>
    ensures { IfOk result (λ marks. marks.items ≡ replicate count Mark.New) }
{
    let mut marks = Vec::with_capacity(alloc, count as usize)?;
    for i in 0..count {
        marks.push(Mark::New)?;
    }
    Ok(marks)
}

impl Search {
    /// The search before its first step.
    pub fn new(alloc: Global, graph: &Graph) -> Result<Search, AllocError>
        ensures search { IfOk result (λ search. IsSearching graph.now search) }
        ensures path { IfOk result (λ search. search.path.items ≡ []) }
    {
        Ok(Search {
            marks: new_marks(alloc, graph.len())?,
            path: Vec::new(alloc),
            order: Vec::new(alloc),
        })
    }

    /// Puts a new node on the path.
    fn enter(&mut self, node: u32) -> Result<(), AllocError>
        requires { node < vec_len self.old.marks }
        ensures marks { OnOk result (self.new.marks.items ≡ slice_set self.old.marks.items node Mark.Open) }
        ensures path { OnOk result (self.new.path.items ≡ self.old.path.items ++ record { node = node; next = 0 } ∷ []) }
        ensures order { OnOk result (self.new.order.items ≡ self.old.order.items) }
    {
        self.path.push(Visit { node, next: 0 })?;
        self.marks[node as usize] = Mark::Open;
        Ok(())
    }

    /// Puts a node in the order.
    fn finish(&mut self, node: u32) -> Result<(), AllocError>
        requires { node < vec_len self.old.marks }
        ensures marks { OnOk result (self.new.marks.items ≡ slice_set self.old.marks.items node Mark.Done) }
        ensures path { OnOk result (self.new.path.items ≡ self.old.path.items) }
        ensures order { OnOk result (self.new.order.items ≡ self.old.order.items ++ node ∷ []) }
    {
        self.order.push(node)?;
        self.marks[node as usize] = Mark::Done;
        Ok(())
    }

    /// One step at the node taken from the top of the path: follows its next reference, or finishes the node
    /// after its last one.
    fn step(&mut self, graph: &Graph, top: Visit) -> Result<Step, AllocError>
        requires { IsSearch graph.now self.old.marks.items (top ∷ path_of self.old) self.old.order.items }
        ensures { IfOk result (λ step. MatchStep step (Advances graph.now top self.old self.new) (FindsCycle graph.now self.new)) }
    {
        let nodes = graph.refers(top.node);
        if top.next >= nodes.len() {
            self.finish(top.node)?;
            return Ok(Step::Goes);
        }
        let to = nodes[top.next];
        match self.marks[to as usize] {
            Mark::Open => Ok(Step::Closes),
            Mark::Done => {
                self.path.push(Visit {
                    node: top.node,
                    next: top.next + 1,
                })?;
                Ok(Step::Goes)
            }
            Mark::New => {
                self.path.push(top)?;
                self.enter(to)?;
                Ok(Step::Goes)
            }
        }
    }

    /// Puts the node and all that it leads to in the order, unless a cycle is found.
    pub fn visit(&mut self, graph: &Graph, root: u32) -> Result<Step, AllocError>
        requires search { IsSearching graph.now self.old }
        requires path { self.old.path.items ≡ [] }
        requires root { root < length graph.now }
        ensures { IfOk result (λ step. MatchStep step (Visits graph.now root self.old self.new) (FindsCycle graph.now self.new)) }
    {
        match self.marks[root as usize] {
            Mark::New => {}
            Mark::Open | Mark::Done => return Ok(Step::Goes),
        }
        self.enter(root)?;
        while let Some(top) = self.path.pop() {
            match self.step(graph, top)? {
                Step::Goes => {}
                Step::Closes => return Ok(Step::Closes),
            }
        }
        Ok(Step::Goes)
    }
}
