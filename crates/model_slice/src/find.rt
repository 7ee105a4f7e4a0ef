ghost use Rattle.std.specs.Prelude.{◌≡◌, List};
ghost use Rattle.std.specs.Option.{option_copied};
ghost use Rattle.ut_logic.specs.declared.facts.Fact as declared;
ghost use Rattle.model_slice.specs.Named.{first_of, names_at, names_of};

use ut_logic::{Fact, Node};

/// Facts that are found by their nodes, wherever they are kept.
pub trait FindFact {
    /// The facts, in order; of several facts of one node the first counts.
    ghost facts: { Self → List declared.Fact };

    /// The fact of a node, if it has one.
    fn fact(&self, node: Node) -> Option<&Fact>
        ensures { option_copied result ≡ first_of (facts self.now) node };
}

/// The nodes that the node's fact names; none where it has no fact.
pub fn names_in<S: FindFact>(store: &S, node: Node) -> &[Node]
    ensures { result.now ≡ names_of (S.facts store.now) node }
{
    names_of_fact(store.fact(node))
}

/// The nodes that the fact names, if there is one.
fn names_of_fact(fact: Option<&Fact>) -> &[Node]
    ensures { result.now ≡ names_at (option_copied fact.entry) }
{
    match fact {
        Some(fact) => fact.names.as_slice(),
        None => &[],
    }
}
