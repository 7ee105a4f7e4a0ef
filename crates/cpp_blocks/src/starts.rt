use ut_logic::{Formula, Item, Node, Sequence};

/// How a macro starts: when it is defined, and when it is defined and true.
#[derive(Drop)]
pub struct StartOf {
    pub d: Formula,
    pub t: Formula,
    /// The nodes of the symbols in the formulas.
    pub names: Sequence<Node>,
    /// The items of the formulas: those of undeclared names, outer conditions, starts and truths.
    pub items: Sequence<Item>,
}

/// When a source is built.
#[derive(Drop)]
pub struct BuiltOf {
    pub formula: Formula,
    /// The nodes of the symbols of its steps.
    pub names: Sequence<Node>,
    /// The items of the formula: those of undeclared names and outer conditions.
    pub items: Sequence<Item>,
}
