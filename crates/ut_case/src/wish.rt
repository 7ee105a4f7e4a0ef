ghost use Rattle.std.specs.Prelude.{◌≡◌, IfOk};

use crate::question::BlockId;
use std::alloc::{AllocError, Global};
use ut_logic::{Formula, Node, Sequence, Text};

/// What a question asks of a case.
#[derive(Debug, Drop)]
pub enum Wish {
    /// The block is on; block 0 is the source itself.
    Block(BlockId),
    /// The symbol isn't n. It is asked over valid configurations alone.
    On(Text),
    /// The symbol is n. It is asked over valid configurations alone.
    Off(Text),
    /// The formula is true. Each of its items is an outer condition, or its owner is a node of the list.
    Holds {
        formula: Formula,
        nodes: Sequence<Node>,
    },
}

impl Wish {
    /// An equal wish. The only error is want of memory.
    pub fn copy(&self, alloc: Global) -> Result<Wish, AllocError>
        ensures { IfOk result (λ wish. wish ≡ self.now) }
    {
        match self {
            Wish::Block(block) => Ok(Wish::Block(*block)),
            Wish::On(name) => Ok(Wish::On(name.copy(alloc)?)),
            Wish::Off(name) => Ok(Wish::Off(name.copy(alloc)?)),
            Wish::Holds { formula, nodes } => {
                let formula = formula.copy(alloc)?;
                let nodes = copy_nodes(alloc, nodes.as_slice())?;
                Ok(Wish::Holds { formula, nodes })
            }
        }
    }
}

/// The same nodes.
fn copy_nodes(alloc: Global, nodes: &[Node]) -> Result<Sequence<Node>, AllocError>
    ensures { IfOk result (λ copies. copies ≡ nodes.now) }
{
    let mut copies = Vec::with_capacity(alloc, nodes.len())?;
    copies.extend_from_slice(nodes)?;
    Ok(Sequence::from_vec(copies))
}
