ghost use Rattle.std.specs.Prelude.{◌≡◌, ◌↔◌, ◌&&◌, IfOk, IsTrue};
ghost use Rattle.std.specs.List.{list_all};
ghost use Rattle.model_slice.specs.Named.{AreKnown, names_of};
ghost use Rattle.model_slice.specs.Found.{has_fact};

use crate::find::{FindFact, names_in};
use crate::indexed::IndexedFacts;
use std::alloc::{AllocError, Global};
use ut_logic::{Fact, Facts, Node};

/// Whether each root, and each node that a fact names, has a fact, as `slice` asks. The only error is
/// want of memory.
pub fn are_known(alloc: Global, facts: &Facts, roots: &[Node]) -> Result<bool, AllocError>
    ensures { IfOk result (λ known. IsTrue known ↔ AreKnown facts.now.list roots.now) }
{
    let store = IndexedFacts::of(alloc, facts)?;
    Ok(all_have_facts(&store, facts.list.as_slice(), roots))
}

/// Whether each root, and each node that one of these facts names, has a fact.
fn all_have_facts<S: FindFact>(store: &S, list: &[Fact], roots: &[Node]) -> bool
    ensures { result ≡ (list_all (has_fact (S.facts store.now)) roots.now && list_all (λ f. list_all (has_fact (S.facts store.now)) (names_of (S.facts store.now) f.node)) list.now) }
{
    have_facts(store, roots) && name_facts(store, list)
}

/// Whether each of the nodes has a fact.
fn have_facts<S: FindFact>(store: &S, nodes: &[Node]) -> bool
    ensures { result ≡ list_all (has_fact (S.facts store.now)) nodes.now }
{
    for node in nodes {
        if store.fact(*node).is_none() {
            return false;
        }
    }
    true
}

/// Whether each node that one of these facts names has a fact.
fn name_facts<S: FindFact>(store: &S, list: &[Fact]) -> bool
    ensures { result ≡ list_all (λ f. list_all (has_fact (S.facts store.now)) (names_of (S.facts store.now) f.node)) list.now }
{
    for fact in list {
        if !have_facts(store, names_in(store, fact.node)) {
            return false;
        }
    }
    true
}
