ghost use Rattle.std.specs.Prelude.{◌≡◌, ◌↔◌, ◌&&◌, ◌||◌, ◌∷◌, ◌++◌, map, IfOk, OnOk, IsTrue};
ghost use Rattle.std.specs.List.{list_all};
ghost use Rattle.ut_logic.specs.Assign.{is_in};
ghost use Rattle.ut_logic.specs.Truth.{mentioned, together};
ghost use Rattle.clausify.specs.Order as order;

use crate::chosen::chosen;
use crate::items::{collected, is_outer, listed};
use indexmap::IndexSet;
use model_slice::{FindFact, IndexedFacts, Slice};
use std::alloc::{AllocError, Global};
use ut_logic::{Definition, Fact, Facts, Formula, Item, mention, mention_each};

/// Whether each item that the slice's facts mention is listed in one of them, and each that the wish
/// mentions is or is an outer condition, as `clauses` asks. The only error is want of memory.
pub fn are_listed(
    alloc: Global,
    facts: &Facts,
    slice: &Slice,
    wish: &[Formula],
) -> Result<bool, AllocError>
    ensures { IfOk result (λ known. IsTrue known ↔ (order.AreListed (order.slice_facts facts.now slice.now) × order.IsWishOver (order.slice_facts facts.now slice.now) wish.now)) }
{
    let store = IndexedFacts::of(alloc, facts)?;
    let known = are_listed_in(alloc, &store, &[], slice, wish)?;
    Ok(known)
}

/// `are_listed` over facts wherever they are kept, and of formulas that are held before them, as `clauses_in`
/// asks.
pub fn are_listed_in<S: FindFact>(
    alloc: Global,
    store: &S,
    held: &[Formula],
    slice: &Slice,
    wish: &[Formula],
) -> Result<bool, AllocError>
    ensures { IfOk result (λ known. IsTrue known ↔ (order.AreListed (order.facts_of (S.facts store.now) slice.now.nodes) × (order.AreOver (order.items_of (order.facts_of (S.facts store.now) slice.now.nodes)) held.now × order.IsWishOver (order.facts_of (S.facts store.now) slice.now.nodes) wish.now))) }
{
    let chosen = chosen(alloc, store, slice.nodes.as_slice())?;
    let items = listed(alloc, &chosen)?;
    let known = collected(alloc, &items)?;
    let mut mentioned = Vec::new(alloc);
    mention_facts(&chosen, &mut mentioned)?;
    mention_each(held, &mut mentioned)?;
    let mut wished = Vec::new(alloc);
    mention_each(wish, &mut wished)?;
    Ok(all_known(&known, &mentioned, &wished))
}

/// Whether each item that the formulas mention is known. The only error is want of memory.
pub fn all_among(alloc: Global, known: &IndexSet<Item>, fs: &[Formula]) -> Result<bool, AllocError>
    ensures { IfOk result (λ all. IsTrue all ↔ order.AreOver known.now.keys fs.now) }
{
    let mut mentioned = Vec::new(alloc);
    mention_each(fs, &mut mentioned)?;
    Ok(each_known(known, &mentioned))
}

/// Whether all that is mentioned is known, and all that is wished is known or an outer condition.
fn all_known(known: &IndexSet<Item>, mentioned: &[Item], wished: &[Item]) -> bool
    ensures { result ≡ (list_all (λ i. is_in known.now.keys i) mentioned.now && list_all (λ i. is_in known.now.keys i || order.is_outer i) wished.now) }
{
    each_known(known, mentioned) && each_known_or_outer(known, wished)
}

/// Whether the item is known.
fn has(known: &IndexSet<Item>, item: Item) -> bool
    ensures { result ≡ is_in known.now.keys item }
{
    known.contains(&item)
}

/// Whether each of the items is known.
fn each_known(known: &IndexSet<Item>, items: &[Item]) -> bool
    ensures { result ≡ list_all (λ i. is_in known.now.keys i) items.now }
{
    for item in items {
        if !has(known, *item) {
            return false;
        }
    }
    true
}

/// Whether each of the items is known or an outer condition.
fn each_known_or_outer(known: &IndexSet<Item>, items: &[Item]) -> bool
    ensures { result ≡ list_all (λ i. is_in known.now.keys i || order.is_outer i) items.now }
{
    for item in items {
        if !(has(known, *item) || is_outer(*item)) {
            return false;
        }
    }
    true
}

/// Adds the items that the facts mention.
fn mention_facts(facts: &[&Fact], items: &mut Vec<Item>) -> Result<(), AllocError>
    ensures { OnOk result (items.new.items ≡ items.old.items ++ order.mentioned_in (map (λ f. f.now) facts.now)) }
{
    for fact in facts {
        mention_fact(fact, items)?;
    }
    Ok(())
}

/// Adds the items that the fact mentions.
fn mention_fact(fact: &Fact, items: &mut Vec<Item>) -> Result<(), AllocError>
    ensures { OnOk result (items.new.items ≡ items.old.items ++ order.mentioned_of fact.now) }
{
    mention_each(fact.holds.as_slice(), items)?;
    mention_definitions(fact.defines.as_slice(), items)
}

/// Adds the items that the definitions define and mention.
fn mention_definitions(list: &[Definition], items: &mut Vec<Item>) -> Result<(), AllocError>
    ensures { OnOk result (items.new.items ≡ items.old.items ++ together (map (λ d. d.item ∷ mentioned d.formula) list.now)) }
{
    for definition in list {
        items.push(definition.item)?;
        mention(&definition.formula, items)?;
    }
    Ok(())
}
