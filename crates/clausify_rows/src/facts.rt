//! The facts of two bool symbols A and B, where B depends on A.

use sqlite_items::{Boxed, Items};
use std::alloc::{AllocError, Global};
use ut_logic::{Fact, Facts, Formula, Item, Node, Sequence};

/// The symbol A is y.
pub const A: Item = Item::SymY(0);

/// The symbol B is y.
pub const B: Item = Item::SymY(1);

/// The formula is false.
pub fn not(alloc: Global, f: Formula) -> Result<Formula, AllocError> {
    Ok(Formula::Neg(Boxed::new(alloc, f)?))
}

/// One of the two is true.
pub fn either(alloc: Global, a: Formula, b: Formula) -> Result<Formula, AllocError> {
    Ok(Formula::AnyOf(Items::from_vec(vec![in alloc; a, b]?)))
}

/// The fact of a symbol with one item.
fn fact(alloc: Global, sym: u32, holds: Vec<Formula>, item: Item) -> Result<Fact, AllocError> {
    let items = vec![in alloc; item]?;
    Ok(Fact {
        node: Node::Sym(sym),
        holds: Sequence::from_vec(holds),
        defines: Sequence::new(alloc),
        names: Sequence::new(alloc),
        items: Sequence::from_vec(items),
    })
}

/// The facts of both symbols.
pub fn facts(alloc: Global) -> Result<Facts, AllocError> {
    let depends = either(alloc, not(alloc, Formula::Is(B))?, Formula::Is(A))?;
    let holds = vec![in alloc; depends]?;
    let b = fact(alloc, 1, holds, B)?;
    let a = fact(alloc, 0, Vec::new(alloc), A)?;
    let list = vec![in alloc; b, a]?;
    Ok(Facts {
        list: Sequence::from_vec(list),
    })
}
