ghost use Rattle.std.specs.Prelude.{ℕ, List, Bool, All};
ghost use Rattle.ut_logic.specs.declared.item.Item.{Item};
ghost use Rattle.ut_logic.specs.declared.node.Node.{Node};
ghost use Rattle.ut_logic.specs.Facts.{MeetsAll};
ghost use Rattle.kconf_tree.specs.Looks.{AreSameIn};
ghost use Rattle.kconf_tree.specs.Value.{Configuration};
ghost use Rattle.kconf_tree.specs.Valid.{KeepsRules};
ghost use Rattle.kconf_tree.specs.WellMade.{IsWellMade};
ghost use Rattle.kconf_tree.specs.Parts.{part_of_nodes, IsClosedPart};
ghost use Rattle.kconf_constr.specs.Scope.{Scope, IsRising};
ghost use Rattle.kconf_constr.specs.Closed.{IsClosed, ListsFitting, MentionsOwn, NamesNodes};
ghost use Rattle.kconf_constr.specs.Meaning.{SaysWritten};
ghost use Rattle.kconf_constr.specs.PropertyFormulas.{written_formula};
ghost use Rattle.kconf_constr.specs.Stands.{read_off, truths_of};
ghost use Rattle.kconf_constr.specs.FactsOf.{facts_of};
ghost use Rattle.kconf_constr.specs.Standing.{AreClosed, IsCovered, MeetsOn, SomeConfiguration};

/// Law: a configuration that keeps the rules gives truths that meet every fact, where the list has those undeclared
/// names of the tree that it reads as y.
pub fn rules_meet_facts()
    ensures { (s : Scope) → IsWellMade s.shape → (c : Configuration) → IsCovered s c → KeepsRules s.shape c → MeetsAll (truths_of s c) (facts_of s) }
{}

/// Law: truths that meet the facts of a closed set of nodes stand there for some configuration under which each of
/// its nodes is right.
pub fn truths_stand()
    ensures { (s : Scope) → IsWellMade s.shape → IsRising s.undeclared → (nodes : List Node) (v : Item → Bool) → AreClosed s nodes → MeetsOn s nodes v → SomeConfiguration s nodes v }
{}

/// Law: a closed set of nodes is a closed part of the tree.
pub fn closed_nodes_are_a_part()
    ensures { (s : Scope) → IsWellMade s.shape → (nodes : List Node) → AreClosed s nodes → IsClosedPart s.shape (part_of_nodes nodes) }
{}

/// Law: a configuration that keeps the rules is the one that is read off its own truths, in all that the rules look at.
pub fn truths_are_read_back()
    ensures { (s : Scope) → IsWellMade s.shape → (c : Configuration) → IsCovered s c → KeepsRules s.shape c → AreSameIn s.shape c (read_off s (truths_of s c)) }
{}

/// Law: what a fact of a tree mentions fits the tree, and belongs to its node or to one that it names, or is listed; what it
/// names is a node of the tree; and what it lists fits, and belongs to its own node or to none.
pub fn facts_are_closed()
    ensures closed { (s : Scope) → IsWellMade s.shape → All (IsClosed s) (facts_of s) }
    ensures named { (s : Scope) → IsWellMade s.shape → All (NamesNodes s.shape) (facts_of s) }
    ensures lists { (s : Scope) → IsWellMade s.shape → All (ListsFitting s) (facts_of s) }
{}

/// Law: the formula that a symbol of texts or numbers is written says so, and mentions items of the symbol's own references.
pub fn formulas_say_written()
    ensures says { (s : Scope) (k : ℕ) → SaysWritten s k (written_formula s k) }
    ensures mentions { (s : Scope) (k : ℕ) → MentionsOwn s k (written_formula s k) }
{}
