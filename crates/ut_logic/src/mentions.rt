ghost use Rattle.std.specs.Prelude.{◌≡◌, ◌++◌, map, OnOk};
ghost use Rattle.ut_logic.specs.Truth.{mentioned, together};

use crate::formula::Formula;
use crate::item::Item;
use std::alloc::AllocError;

/// Adds the items that the formula mentions, each as often as it stands there. The only error is want of memory.
#[cycle(mentions)]
pub fn mention(f: &Formula, items: &mut Vec<Item>) -> Result<(), AllocError>
    ensures { OnOk result (items.new.items ≡ items.old.items ++ mentioned f.now) }
{
    match f {
        Formula::Yes => Ok(()),
        Formula::No => Ok(()),
        Formula::Is(item) => {
            items.push(*item)?;
            Ok(())
        }
        Formula::Neg(inner) => mention(inner.get(), items),
        Formula::AllOf(list) => mention_each(list.as_slice(), items),
        Formula::AnyOf(list) => mention_each(list.as_slice(), items),
    }
}

/// Adds the items that the formulas mention, one formula after another. The only error is want of memory.
#[cycle(mentions)]
pub fn mention_each(list: &[Formula], items: &mut Vec<Item>) -> Result<(), AllocError>
    ensures { OnOk result (items.new.items ≡ items.old.items ++ together (map mentioned list.now)) }
{
    for f in list {
        mention(f, items)?;
    }
    Ok(())
}
