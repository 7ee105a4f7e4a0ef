use ut_logic::{Node, Sequence};

/// Nodes in their order, each once.
#[derive(Debug, Drop)]
pub struct Slice {
    pub nodes: Sequence<Node>,
}
