//! The items of a node.

ghost use Rattle.std.specs.Prelude.{◌≡◌, ◌++◌, filter, IfOk};
ghost use Rattle.kconf_constr.specs.FactsOf as spec;

use kconf_tree::Counts;
use std::alloc::{AllocError, Global};
use ut_logic::{Formula, Item, mention_each};

/// Whether no node has the item as its own.
fn is_loose(item: Item) -> bool
    ensures { result ≡ spec.is_loose item }
{
    item.owner().is_none()
}

/// Keeps the items that no node has as its own.
fn keep_loose(items: &mut Vec<Item>)
    ensures { items.new.items ≡ filter spec.is_loose items.old.items }
{
    items.retain(|item| is_loose(*item));
}

/// The items that these formulas mention and no node has as its own, each as often as it is mentioned. The only
/// error is out of memory.
pub fn loose_items(alloc: Global, formulas: &[Formula]) -> Result<Vec<Item>, AllocError>
    ensures { IfOk result (λ items. items.items ≡ spec.loose_items formulas.now) }
{
    let mut items = Vec::new(alloc);
    mention_each(formulas, &mut items)?;
    keep_loose(&mut items);
    Ok(items)
}

/// The node's own items with those of its formulas that no node has as its own.
pub fn with_loose(
    alloc: Global,
    mut own: Vec<Item>,
    formulas: &[Formula],
) -> Result<Vec<Item>, AllocError>
    ensures { IfOk result (λ items. items.items ≡ own.items ++ spec.loose_items formulas.now) }
{
    let mut loose = loose_items(alloc, formulas)?;
    own.append(&mut loose)?;
    Ok(own)
}

/// The items of a choice that counts as this.
pub fn mode_items(alloc: Global, counts: Counts, choice: u32) -> Result<Vec<Item>, AllocError>
    ensures { IfOk result (λ items. items.items ≡ spec.mode_items counts choice) }
{
    match counts {
        Counts::Bool | Counts::Neither => Ok(vec![in alloc; Item::ModeY(choice)]?),
        Counts::Tristate => Ok(vec![in alloc; Item::ModeY(choice), Item::ModeM(choice)]?),
    }
}

/// The items of a symbol that counts as this.
pub fn own_items(alloc: Global, counts: Counts, sym: u32) -> Result<Vec<Item>, AllocError>
    ensures { IfOk result (λ items. items.items ≡ spec.own_items counts sym) }
{
    match counts {
        Counts::Bool => Ok(vec![in alloc; Item::SymY(sym)]?),
        Counts::Tristate => Ok(vec![in alloc; Item::SymY(sym), Item::SymM(sym)]?),
        Counts::Neither => Ok(Vec::new(alloc)),
    }
}
