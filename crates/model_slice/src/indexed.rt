ghost use Rattle.std.specs.Prelude.{◌≡◌, ◌<◌, length, slice_index_or, IfOk};
ghost use Rattle.std.specs.Option.{option_copied};
ghost use Rattle.indexmap.specs.IndexMap.{get};
ghost use Rattle.ut_logic.specs.Node.{node_eq};
ghost use Rattle.ut_logic.specs.declared.node.Node as declared;
ghost use Rattle.ut_logic.specs.declared.facts.Fact as declared_fact;
ghost use Rattle.model_slice.specs.Named.{first_of};
ghost use Rattle.model_slice.specs.Found.{place_from};

use crate::find::FindFact;
use indexmap::IndexMap;
use std::alloc::{AllocError, Global};
use std::marker::Model;
use ut_logic::{Fact, Facts, Node};

/// A list of facts with the place of each node's fact, for many look-ups in that list.
#[derive(Drop)]
pub struct IndexedFacts<'a> {
    facts: &'a Facts,
    places: IndexMap<Node, usize>,
}

impl<'a> Model for IndexedFacts<'a> {
    ghost use Rattle.std.specs.Prelude.{List};
    ghost use Rattle.ut_logic.specs.declared.facts.Fact.{Fact};
    ghost use Rattle.std.specs.Prelude.{◌≡◌};
    ghost use Rattle.indexmap.specs.IndexMap.{get};
    ghost use Rattle.ut_logic.specs.Node.{node_eq};
    ghost use Rattle.ut_logic.specs.declared.node.Node.{Node};
    ghost use Rattle.model_slice.specs.Found.{place_from};
    ghost use Rattle.ut_logic.specs.contracts.formula.Formula as e;
    ghost use Rattle.std.specs.Coded.{codes};

    ghost Value = { List Fact };

    ghost coded = { Prim.hlevel (codes, e.the_row.coded) };

    ghost view = { λ s. s.facts.now.list };

    ghost invariant = { λ s. (n : Node) → get node_eq s.places n ≡ place_from 0 s.facts.now.list n };
}

impl<'a> IndexedFacts<'a> {
    /// These facts; of several facts of one node the first counts. The only error is want of memory.
    pub fn of(alloc: Global, facts: &'a Facts) -> Result<IndexedFacts<'a>, AllocError>
        ensures { IfOk result (λ s. s ≡ facts.now.list) }
    {
        let places = index(alloc, facts.list.as_slice())?;
        Ok(IndexedFacts { facts, places })
    }
}

impl<'a> FindFact for IndexedFacts<'a> {
    ghost facts = { λ s. s };

    fn fact(&self, node: Node) -> Option<&Fact> {
        fact_at(
            self.facts.list.as_slice(),
            self.places.get(&node).copied(),
            node,
        )
    }
}

/// The node's fact, by the place of it.
fn fact_at(facts: &[Fact], place: Option<usize>, node: Node) -> Option<&Fact>
    requires { place ≡ place_from 0 facts.now node }
    ensures { option_copied result ≡ first_of facts.now node }
{
    match place {
        Some(place) => Some(at(facts, place)),
        None => None,
    }
}

/// The fact at the place.
fn at(facts: &[Fact], place: usize) -> &Fact
    requires { place < length facts.now }
    ensures { (d : declared_fact.Fact) → slice_index_or facts.now place d ≡ result.now }
{
    &facts[place]
}

/// The place of each node that has a fact.
fn index(alloc: Global, facts: &[Fact]) -> Result<IndexMap<Node, usize>, AllocError>
    ensures { IfOk result (λ map. (n : declared.Node) → get node_eq map n ≡ place_from 0 facts.now n) }
{
    let mut map = IndexMap::with_capacity(alloc, facts.len())?;
    for place in (0..facts.len()).rev() {
        map.insert(facts[place].node, place)?;
    }
    Ok(map)
}
