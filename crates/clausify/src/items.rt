ghost use Rattle.std.specs.Prelude.{◌≡◌, ◌++◌, map, filter, IfOk, IsSorted};
ghost use Rattle.ut_logic.specs.Assign.{is_in};
ghost use Rattle.ut_logic.specs.Item.{item_cmp};
ghost use Rattle.ut_logic.specs.declared.item.Item as declared;
ghost use Rattle.clausify.specs.Order as order;

use indexmap::IndexSet;
use std::alloc::{AllocError, Global};
use ut_logic::{Fact, Formula, Item, mention_each};

/// The items that the facts list, and the outer conditions that the wish mentions, in order and each once.
pub fn items_of(
    alloc: Global,
    facts: &[&Fact],
    wish: &[Formula],
) -> Result<IndexSet<Item>, AllocError>
    ensures sorted { IfOk result (λ s. IsSorted item_cmp s.keys) }
    ensures members { IfOk result (λ s. (i : declared.Item) → is_in s.keys i ≡ is_in (order.items_of (map (λ f. f.now) facts.now) ++ order.outers_of wish.now) i) }
{
    let mut items = listed(alloc, facts)?;
    let outers = outers(alloc, wish)?;
    items.extend_from_slice(&outers)?;
    in_order(alloc, &items)
}

/// Whether the item is an outer condition.
pub fn is_outer(item: Item) -> bool
    ensures { result ≡ order.is_outer item }
{
    matches!(item, Item::Outer(_))
}

/// The outer conditions that the formulas mention.
fn outers(alloc: Global, wish: &[Formula]) -> Result<Vec<Item>, AllocError>
    ensures { IfOk result (λ v. v.items ≡ order.outers_of wish.now) }
{
    let mut items = Vec::new(alloc);
    mention_each(wish, &mut items)?;
    keep_outers(&mut items);
    Ok(items)
}

/// Keeps the outer conditions alone.
fn keep_outers(items: &mut Vec<Item>)
    ensures { items.new.items ≡ filter order.is_outer items.old.items }
{
    items.retain(|item| is_outer(*item));
}

/// The items that the facts list.
pub fn listed(alloc: Global, facts: &[&Fact]) -> Result<Vec<Item>, AllocError>
    ensures { IfOk result (λ v. v.items ≡ order.items_of (map (λ f. f.now) facts.now)) }
{
    let mut items = Vec::new(alloc);
    for fact in facts {
        items.extend_from_slice(fact.items.as_slice())?;
    }
    Ok(items)
}

/// The items in order, each once.
fn in_order(alloc: Global, items: &[Item]) -> Result<IndexSet<Item>, AllocError>
    ensures sorted { IfOk result (λ s. IsSorted item_cmp s.keys) }
    ensures members { IfOk result (λ s. (i : declared.Item) → is_in s.keys i ≡ is_in items.now i) }
{
    let mut set = collected(alloc, items)?;
    set.sort_unstable()?;
    Ok(set)
}

/// The items, each once. The only error is want of memory.
pub fn collected(alloc: Global, items: &[Item]) -> Result<IndexSet<Item>, AllocError>
    ensures members { IfOk result (λ s. (i : declared.Item) → is_in s.keys i ≡ is_in items.now i) }
{
    let mut set = IndexSet::with_capacity(alloc, items.len())?;
    for item in items {
        set.insert(*item)?;
    }
    Ok(set)
}
