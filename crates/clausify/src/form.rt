ghost use Rattle.std.specs.Prelude.{◌≡◌, ◌++◌, IfOk, IsSorted};
ghost use Rattle.ut_logic.specs.Assign.{is_in};
ghost use Rattle.ut_logic.specs.Item.{item_cmp};
ghost use Rattle.ut_logic.specs.declared.item.Item as declared;
ghost use Rattle.clausify.specs.Meaning.{StandsFor};
ghost use Rattle.clausify.specs.Order as order;
ghost use Rattle.clausify.specs.Tidy.{AreTidy};
ghost use Rattle.clausify.specs.Begun.{IsFormOf};

use crate::chosen::chosen;
use crate::items::items_of;
use crate::stages::drafted;
use crate::variables::note_symbols;
use crate::wish::with_wish;
use model_slice::{FindFact, IndexedFacts, Slice, SymbolRoom};
use std::alloc::{AllocError, Global};
use ut_logic::{Cnf, Facts, Formula};

/// The clause form of the facts of the slice's nodes, in the order of these nodes, and of the wish. The only
/// error is want of memory.
///
/// Its variables are the items that the facts list and the outer conditions that the wish mentions, in
/// their order, and then inner nodes as they are met. Each item that the facts mention is listed in one of
/// them, and each that the wish mentions is or is an outer condition. Of several facts of one node the first
/// counts, and a node without a fact adds nothing. This project's rule.
pub fn clauses(
    alloc: Global,
    facts: &Facts,
    slice: &Slice,
    wish: &[Formula],
) -> Result<Cnf, AllocError>
    requires listed { order.AreListed (order.slice_facts facts.now slice.now) }
    requires wish { order.IsWishOver (order.slice_facts facts.now slice.now) wish.now }
    ensures sorted { IfOk result (λ cnf. IsSorted item_cmp cnf.items) }
    ensures items { IfOk result (λ cnf. (i : declared.Item) → is_in cnf.items i ≡ is_in (order.items_of (order.slice_facts facts.now slice.now) ++ order.outers_of wish.now) i) }
    ensures vars { IfOk result (λ cnf. cnf.vars ≡ (order.form_over cnf.items (order.slice_facts facts.now slice.now) wish.now).vars) }
    ensures clauses { IfOk result (λ cnf. AreTidy (order.form_over cnf.items (order.slice_facts facts.now slice.now) wish.now).clauses cnf.clauses) }
    ensures means { IfOk result (λ cnf. StandsFor cnf.items (order.slice_facts facts.now slice.now) wish.now cnf.vars cnf.clauses) }
{
    let store = IndexedFacts::of(alloc, facts)?;
    let mut room = SymbolRoom::new(alloc, facts.list.len())?;
    let cnf = clauses_in(alloc, &store, &mut room, &[], slice, wish)?;
    Ok(cnf)
}

/// `clauses` over facts wherever they are kept, with room that the caller lends, and with formulas that are held
/// before the facts, as the lines of a model text are: it goes over the slice's facts and over nothing else.
///
/// With room for all symbols their variables are found by number; the answer is the same with any room.
pub fn clauses_in<S: FindFact>(
    alloc: Global,
    store: &S,
    room: &mut SymbolRoom,
    held: &[Formula],
    slice: &Slice,
    wish: &[Formula],
) -> Result<Cnf, AllocError>
    requires listed { order.AreListed (order.facts_of (S.facts store.now) slice.now.nodes) }
    requires held { order.AreOver (order.items_of (order.facts_of (S.facts store.now) slice.now.nodes)) held.now }
    requires wish { order.IsWishOver (order.facts_of (S.facts store.now) slice.now.nodes) wish.now }
    ensures sorted { IfOk result (λ cnf. IsSorted item_cmp cnf.items) }
    ensures items { IfOk result (λ cnf. (i : declared.Item) → is_in cnf.items i ≡ is_in (order.items_of (order.facts_of (S.facts store.now) slice.now.nodes) ++ order.outers_of wish.now) i) }
    ensures form { IfOk result (λ cnf. IsFormOf held.now (order.facts_of (S.facts store.now) slice.now.nodes) wish.now cnf.items cnf.vars cnf.clauses) }
{
    let facts = chosen(alloc, store, slice.nodes.as_slice())?;
    let items = items_of(alloc, &facts, wish)?;
    note_symbols(items.as_slice(), room);
    let draft = drafted(alloc, &items, room, held, &facts)?;
    let cnf = with_wish(alloc, &items, room, draft, wish)?;
    Ok(cnf)
}
