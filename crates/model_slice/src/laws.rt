ghost use Rattle.std.specs.Prelude.{◌↔◌, List, All, Contains};
ghost use Rattle.ut_logic.specs.declared.node.Node as declared_node;
ghost use Rattle.ut_logic.specs.declared.facts.Fact as declared_fact;
ghost use Rattle.model_slice.specs.Closed.{IsClosed, IsLeastClosed};
ghost use Rattle.model_slice.specs.Named.{HaveSameFacts, names_of};

/// Law: two lists of facts with the same facts at the nodes of a closed set have the same least closed sets
/// over the roots that it holds.
pub fn same_facts_have_one_slice()
    ensures { (facts others : List declared_fact.Fact) (set roots nodes : List declared_node.Node) →
        HaveSameFacts facts others set → IsClosed (names_of facts) set → All (Contains set) roots →
        IsLeastClosed (names_of facts) roots nodes ↔ IsLeastClosed (names_of others) roots nodes }
{}
