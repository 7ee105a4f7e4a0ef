use crate::{BlockId, Wish};
use std::alloc::AllocError;
use ut_logic::{Formula, Item, Node, Sequence, Text};

#[test]
fn a_copied_wish_asks_the_same(rt: HostRuntime) -> Result<(), AllocError> {
    let name = Text::new(rt.alloc(), "NET")?;
    let off = Wish::Off(name).copy(rt.alloc())?;
    assert!(rt; matches!(&off, Wish::Off(name) if name.text() == "NET"));

    let block = Wish::Block(BlockId { file: 1, block: 2 }).copy(rt.alloc())?;
    assert!(rt; matches!(block, Wish::Block(BlockId { file: 1, block: 2 })));

    let formula = Formula::Is(Item::SymY(3));
    let nodes = Sequence::from_vec(vec![in rt.alloc(); Node::Sym(3)]?);
    let holds = Wish::Holds { formula, nodes }.copy(rt.alloc())?;
    assert!(rt;
        matches!(
            &holds,
            Wish::Holds { formula: Formula::Is(Item::SymY(3)), nodes }
                if nodes.as_slice() == [Node::Sym(3)].as_slice()
        )
    );
    Ok(())
}
