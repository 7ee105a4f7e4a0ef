//! Graphs of numbered nodes: an order in which each node stands after all that it refers to, or the first
//! cycle.
//!
//! In goes, for each node, the list of the nodes that it refers to; out comes such an order, or the cycle
//! that forbids one. The definitions are the usual ones; which cycle is the first one is this project's
//! rule.
//!
//! A contract sees a graph as the list of these lists. The promise to the crates above: there is an answer
//! for each graph, the order where one exists and the first cycle where none does; and `SettleLaws` says
//! what an order is good for.
#![tactic(auto)]

mod cycle;
mod distance;
mod first_on_cycle;
mod graph;
mod leaving;
mod nearest;
mod order;
mod parts;
mod reversed;
mod rising;
mod search;
#[cfg(test)]
mod tests;

pub use graph::Graph;
pub use order::{GraphBad, ordered};
