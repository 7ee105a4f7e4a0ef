use crate::{Graph, GraphBad, ordered};
use std::alloc::{AllocError, Global};

/// A graph of `count` nodes with these references.
fn graph_of(alloc: Global, count: u32, references: &[(u32, u32)]) -> Result<Graph, AllocError> {
    let mut graph = Graph::new(alloc, count)?;
    for (from, to) in references {
        if *from < graph.len() && *to < graph.len() {
            graph.add(*from, *to)?;
        }
    }
    Ok(graph)
}

#[test]
fn each_node_stands_after_all_that_it_refers_to(rt: HostRuntime) -> Result<(), AllocError> {
    let graph = graph_of(rt.alloc(), 4, &[(0, 2), (2, 1), (3, 0), (3, 2)])?;
    match ordered(rt.alloc(), &graph) {
        Ok(order) => assert_eq!(rt; order.as_slice(), [1, 2, 0, 3].as_slice()),
        Err(_) => panic!(rt; "the graph has no cycle"),
    }
    Ok(())
}

#[test]
fn the_first_cycle_is_the_least_of_the_shortest(rt: HostRuntime) -> Result<(), AllocError> {
    let rows: [(&[(u32, u32)], &[u32]); 3] = [
        (&[(4, 4), (3, 3), (0, 1)], &[3, 3]),
        (
            &[(1, 2), (2, 3), (3, 1), (1, 4), (4, 0), (0, 1)],
            &[0, 1, 4, 0],
        ),
        (
            &[(0, 4), (4, 0), (0, 3), (3, 0), (0, 1), (1, 2), (2, 0)],
            &[0, 3, 0],
        ),
    ];
    for (references, wanted) in rows {
        let graph = graph_of(rt.alloc(), 5, references)?;
        match ordered(rt.alloc(), &graph) {
            Err(GraphBad::Cycle(nodes)) => assert_eq!(rt; nodes.as_slice(), wanted),
            Err(GraphBad::Oom) => panic!(rt; "out of memory"),
            Ok(_) => panic!(rt; "the graph has a cycle"),
        }
    }
    Ok(())
}

/// A chain of `count` nodes, each of which refers to the next, and the last to itself.
fn chain_of(alloc: Global, count: u32) -> Result<Graph, AllocError> {
    let mut graph = Graph::new(alloc, count)?;
    for node in 0..count {
        let to = if node < count - 1 { node + 1 } else { node };
        if node < graph.len() && to < graph.len() {
            graph.add(node, to)?;
        }
    }
    Ok(graph)
}

/// One search for each node of the chain would take more than the time of a test.
#[test]
fn a_cycle_at_the_end_of_a_long_chain(rt: HostRuntime) -> Result<(), AllocError> {
    let graph = chain_of(rt.alloc(), 65536)?;
    match ordered(rt.alloc(), &graph) {
        Err(GraphBad::Cycle(nodes)) => assert_eq!(rt; nodes.as_slice(), [65535, 65535].as_slice()),
        Err(GraphBad::Oom) => panic!(rt; "out of memory"),
        Ok(_) => panic!(rt; "the graph has a cycle"),
    }
    Ok(())
}
