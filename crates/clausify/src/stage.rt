ghost use Rattle.std.specs.Prelude.{◌≡◌, ◌||◌};
ghost use Rattle.clausify.specs.Order.{holds_in, defines_in};

use ut_logic::Node;

/// The stages of a clause form, in order, before the wish.
#[derive(Clone, Copy, Debug)]
pub enum Stage {
    /// What symbols and choices hold and define.
    Symbols,
    /// What the states of turn 0 hold.
    Starts,
    /// What blocks hold and define.
    Blocks,
    /// What states define, and what those past turn 0 hold.
    States,
}

impl Stage {
    /// Whether what the node holds comes in this stage.
    pub fn holds(self, node: Node) -> bool
        ensures { result ≡ holds_in self node }
    {
        match node {
            Node::Sym(_) => matches!(self, Stage::Symbols),
            Node::Choice(_) => matches!(self, Stage::Symbols),
            Node::Block { .. } => matches!(self, Stage::Blocks),
            Node::State { turn, .. } => match self {
                Stage::Starts => turn == 0,
                Stage::States => turn != 0,
                _ => false,
            },
        }
    }

    /// Whether what the node defines comes in this stage.
    pub fn defines(self, node: Node) -> bool
        ensures { result ≡ defines_in self node }
    {
        match node {
            Node::Sym(_) => matches!(self, Stage::Symbols),
            Node::Choice(_) => matches!(self, Stage::Symbols),
            Node::Block { .. } => matches!(self, Stage::Blocks),
            Node::State { .. } => matches!(self, Stage::States),
        }
    }

    /// Whether what the node holds or what it defines comes in this stage.
    pub fn takes(self, node: Node) -> bool
        ensures { result ≡ (holds_in self node || defines_in self node) }
    {
        self.holds(node) || self.defines(node)
    }
}
