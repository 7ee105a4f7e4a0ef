ghost use Rattle.std.specs.Prelude.{◌≡◌, ◌⊎◌, ◌≤◌, ℕ, Bool, List, length, map, true};
ghost use Rattle.ut_logic.specs.declared.item.Item as declared_item;
ghost use Rattle.ut_logic.specs.declared.node.Node as declared_node;
ghost use Rattle.ut_logic.specs.declared.formula.Formula as declared_formula;
ghost use Rattle.ut_logic.specs.declared.facts.Fact as declared_fact;
ghost use Rattle.ut_logic.specs.declared.literals.Lit as declared_lit;
ghost use Rattle.ut_logic.specs.Assign.{is_in};
ghost use Rattle.ut_logic.specs.Clauses.{IsModel};
ghost use Rattle.ut_logic.specs.Renaming.{renamed};
ghost use Rattle.ut_logic.specs.Variables.{AreInOrder};
ghost use Rattle.model_slice.specs.Named.{HaveSameFacts};
ghost use Rattle.clausify.specs.Order.{AreOver, facts_of, form_with, mentioned_in};
ghost use Rattle.clausify.specs.Over.{AgreeUpTo, ComesBefore, IsLeastOver, Reads, StandsOver};
ghost use Rattle.clausify.specs.Renamed.{KeepsOrder, renamed_fact};

/// Law: a model that no other comes before gives the least truths of the items that meet facts and wish.
pub fn least_model_gives_least_truths()
    ensures { (items : List declared_item.Item) (facts : List declared_fact.Fact) (wish : List declared_formula.Formula) (vars : ℕ) (clauses : List (List declared_lit.Lit)) (w : ℕ → Bool) (v : declared_item.Item → Bool) →
        StandsOver items facts wish vars clauses → length items ≤ vars → IsModel w clauses →
        ((u : ℕ → Bool) → IsModel u clauses → AgreeUpTo vars w u ⊎ ComesBefore vars w u) →
        Reads items w v → IsLeastOver items facts wish v }
{}

/// Law: two lists of facts with the same facts at nodes have the same facts of these nodes, and so one clause
/// form over any items and with any wish.
pub fn same_facts_have_one_form()
    ensures facts { (facts others : List declared_fact.Fact) (nodes : List declared_node.Node) →
        HaveSameFacts facts others nodes → facts_of facts nodes ≡ facts_of others nodes }
    ensures form { (facts others : List declared_fact.Fact) (nodes : List declared_node.Node) (items : List declared_item.Item) (held wish : List declared_formula.Formula) →
        HaveSameFacts facts others nodes → form_with items held (facts_of facts nodes) wish ≡ form_with items held (facts_of others nodes) wish }
{}

/// Law: other items in the place of a form's items, in the same order, stand in order too, and keep its variables
/// and clauses, where all that is mentioned is among the items.
pub fn renaming_in_order_keeps_the_form()
    ensures order { (r : declared_item.Item → declared_item.Item) (items : List declared_item.Item) →
        KeepsOrder r items → AreInOrder items → AreInOrder (map r items) }
    ensures form { (r : declared_item.Item → declared_item.Item) (items : List declared_item.Item) (held : List declared_formula.Formula) (facts : List declared_fact.Fact) (wish : List declared_formula.Formula) →
        KeepsOrder r items → AreOver items held → ((i : declared_item.Item) → is_in (mentioned_in facts) i ≡ true → is_in items i ≡ true) → AreOver items wish →
        form_with (map r items) (map (renamed r) held) (map (renamed_fact r) facts) (map (renamed r) wish) ≡ form_with items held facts wish }
{}
