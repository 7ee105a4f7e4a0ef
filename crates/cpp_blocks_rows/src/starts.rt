ghost use Rattle.std.specs.Prelude.{◌≡◌, ◌∷◌, [], All, IfOk, length, true};
ghost use Rattle.cpp_blocks.specs.Facts.{AreStarts, is_outside};
ghost use Rattle.cpp_blocks.specs.Nodes.{IsListedStart, IsListedBuilt};

use cpp_blocks::{BuiltOf, StartOf};
use std::alloc::{AllocError, Global};
use ut_logic::{Formula, Item, Sequence};

/// A free start.
fn free_start(alloc: Global, name: u32) -> Result<StartOf, AllocError>
    ensures free { IfOk result (λ s. s.d ≡ Formula.Is (Item.StartD 0 name)) }
    ensures truth { IfOk result (λ s. s.t ≡ Formula.Is (Item.StartT 0 name)) }
    ensures names { IfOk result (λ s. s.names ≡ []) }
    ensures items { IfOk result (λ s. s.items ≡ Item.StartD 0 name ∷ Item.StartT 0 name ∷ []) }
{
    let defined = Item::StartD { file: 0, name };
    let truth = Item::StartT { file: 0, name };
    let items = vec![in alloc; defined, truth]?;
    Ok(StartOf {
        d: Formula::Is(defined),
        t: Formula::Is(truth),
        names: Sequence::new(alloc),
        items: Sequence::from_vec(items),
    })
}

fn number(place: usize) -> Result<u32, AllocError>
    ensures { IfOk result (λ n. n ≡ place) }
{
    u32::try_from(place).map_err(|_| AllocError)
}

/// Free starts of so many names.
pub fn free_starts(alloc: Global, count: usize) -> Result<Vec<StartOf>, AllocError>
    ensures count { IfOk result (λ v. length v.items ≡ count) }
    ensures given { IfOk result (λ v. AreStarts 0 0 v.items) }
    ensures listed { IfOk result (λ v. All IsListedStart v.items) }
{
    let mut starts = Vec::new(alloc);
    for place in 0..count {
        let name = number(place)?;
        starts.push(free_start(alloc, name)?)?;
    }
    Ok(starts)
}

/// A source that is built in any case.
pub fn always_built(alloc: Global) -> BuiltOf
    ensures outside { is_outside result.formula ≡ true }
    ensures listed { IsListedBuilt result }
{
    BuiltOf {
        formula: Formula::Yes,
        names: Sequence::new(alloc),
        items: Sequence::new(alloc),
    }
}
