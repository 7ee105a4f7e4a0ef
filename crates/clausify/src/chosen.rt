ghost use Rattle.std.specs.Prelude.{◌≡◌, ◌++◌, map, IfOk, OnOk};
ghost use Rattle.clausify.specs.Order.{fact_of, facts_of};

use model_slice::FindFact;
use std::alloc::{AllocError, Global};
use ut_logic::{Fact, Node};

/// The facts of the nodes, in their order; a node without a fact is passed over.
pub fn chosen<'a, S: FindFact>(
    alloc: Global,
    store: &'a S,
    nodes: &[Node],
) -> Result<Vec<&'a Fact>, AllocError>
    ensures { IfOk result (λ v. map (λ f. f.now) v.items ≡ facts_of (S.facts store.now) nodes.now) }
{
    let mut found = Vec::with_capacity(alloc, nodes.len())?;
    for node in nodes {
        add_fact(&mut found, store, *node)?;
    }
    Ok(found)
}

/// Adds the fact of the node, if it has one.
fn add_fact<'a, S: FindFact>(
    found: &mut Vec<&'a Fact>,
    store: &'a S,
    node: Node,
) -> Result<(), AllocError>
    ensures { OnOk result (map (λ f. f.now) found.new.items ≡ map (λ f. f.now) found.old.items ++ fact_of (S.facts store.now) node) }
{
    match store.fact(node) {
        Some(fact) => {
            found.push(fact)?;
            Ok(())
        }
        None => Ok(()),
    }
}

/// The nodes of the facts, in one list, so that the facts need not be read to look through them.
pub fn nodes_of(alloc: Global, facts: &[&Fact]) -> Result<Vec<Node>, AllocError>
    ensures { IfOk result (λ v. v.items ≡ map (λ f. f.now.node) facts.now) }
{
    let mut nodes = Vec::with_capacity(alloc, facts.len())?;
    for fact in facts {
        nodes.push(fact.node)?;
    }
    Ok(nodes)
}
