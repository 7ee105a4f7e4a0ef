ghost use Rattle.std.specs.Prelude.{◌≡◌, map, IfOk};
ghost use Rattle.std.specs.List.Sorted.{IsStrictlySortedBy};
ghost use Rattle.ut_logic.specs.Node.{node_cmp};
ghost use Rattle.model_slice.specs.Closed.{IsLeastClosed};
ghost use Rattle.model_slice.specs.Named.{AreKnown, names_of};

use crate::find::{FindFact, names_in};
use crate::indexed::IndexedFacts;
use crate::met::{Met, add, add_each};
use crate::nodes::Slice;
use crate::room::SymbolRoom;
use std::alloc::{AllocError, Global};
use ut_logic::{Facts, Node, Sequence};

/// The least set of nodes that has the roots and all that its nodes name, sorted. The only error is want
/// of memory.
///
/// The roots and the nodes that are named have facts; of several facts of one node the first counts.
pub fn slice(alloc: Global, facts: &Facts, roots: &[Node]) -> Result<Slice, AllocError>
    requires { AreKnown facts.now.list roots.now }
    ensures least_closed { IfOk result (λ s. IsLeastClosed (names_of facts.now.list) roots.now s.nodes) }
    ensures sorted { IfOk result (λ s. IsStrictlySortedBy node_cmp s.nodes) }
{
    let store = IndexedFacts::of(alloc, facts)?;
    let mut room = SymbolRoom::new(alloc, facts.list.len())?;
    slice_in(alloc, &store, &mut room, roots)
}

/// `slice` over facts wherever they are kept, with room that the caller lends: it reads the facts of the nodes
/// that it finds and no others, and takes memory for these nodes and for what they name.
///
/// With room for all symbols no symbol is searched for in a table; the answer is the same with any room.
pub fn slice_in<S: FindFact>(
    alloc: Global,
    store: &S,
    room: &mut SymbolRoom,
    roots: &[Node],
) -> Result<Slice, AllocError>
    requires { AreKnown (S.facts store.now) roots.now }
    ensures least_closed { IfOk result (λ s. IsLeastClosed (names_of (S.facts store.now)) roots.now s.nodes) }
    ensures sorted { IfOk result (λ s. IsStrictlySortedBy node_cmp s.nodes) }
{
    let mut nodes = reached(alloc, store, room, roots)?;
    nodes.sort_unstable();
    nodes.dedup();
    Ok(Slice {
        nodes: Sequence::from_vec(nodes),
    })
}

/// The nodes that are reached, each once, in the order in which they are met: the roots, then the nodes
/// that these name, then those that these name, and so on.
fn reached<S: FindFact>(
    alloc: Global,
    store: &S,
    room: &mut SymbolRoom,
    roots: &[Node],
) -> Result<Vec<Node>, AllocError>
    requires { AreKnown (S.facts store.now) roots.now }
    ensures { IfOk result (λ found. IsLeastClosed (names_of (S.facts store.now)) roots.now found.items) }
{
    let mut met = Met::new(alloc);
    add(&mut met, room, roots)?;
    let mut at = 0;
    while at < met.nodes.len() {
        let count = met.nodes.len();
        let each = names_each(alloc, store, &met.nodes[at..])?;
        add_each(&mut met, room, &each)?;
        at = count;
    }
    Ok(met.into_nodes())
}

/// What the fact of each of the nodes names. It is looked up for all of them before the first is read, so that
/// no look-up waits for what another one finds.
fn names_each<'a, S: FindFact>(
    alloc: Global,
    store: &'a S,
    nodes: &[Node],
) -> Result<Vec<&'a [Node]>, AllocError>
    ensures { IfOk result (λ v. map (λ s. s.now) v.items ≡ map (names_of (S.facts store.now)) nodes.now) }
{
    let mut each = Vec::with_capacity(alloc, nodes.len())?;
    for node in nodes {
        each.push(names_in(store, *node))?;
    }
    Ok(each)
}
