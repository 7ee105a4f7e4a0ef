ghost use Rattle.std.specs.Prelude.{◌≡◌, ℕ, List, All};
ghost use Rattle.ut_logic.specs.declared.node.Node.{Node};
ghost use Rattle.kconf_tree.specs.Shape.{Shape};
ghost use Rattle.kconf_tree.specs.Value.{Configuration};
ghost use Rattle.kconf_tree.specs.Properties.{is_written};
ghost use Rattle.kconf_tree.specs.Valid.{KeepsRules};
ghost use Rattle.kconf_tree.specs.References.{references_of};
ghost use Rattle.kconf_tree.specs.Orders.{IsFirstCycle};
ghost use Rattle.kconf_tree.specs.WellMade.{IsNodeOf, IsWellMade};
ghost use Rattle.kconf_tree.specs.Looks.{AreSameIn};

/// Law: what a node of a tree refers to is a node of the tree.
pub fn references_are_nodes()
    ensures { (t : Shape) → IsWellMade t → (n : Node) → All (IsNodeOf t) (references_of t n) }
{}

/// Law: a tree's rules look at a configuration's values, modes and truths at the tree's own numbers alone, and at
/// how it reads the undeclared names of the tree.
pub fn rules_look_at_the_tree()
    ensures rules { (t : Shape) → IsWellMade t → (c d : Configuration) → AreSameIn t c d → KeepsRules t c → KeepsRules t d }
    ensures written { (t : Shape) → IsWellMade t → (c d : Configuration) → AreSameIn t c d → (k : ℕ) → is_written t c k ≡ is_written t d k }
{}

/// Law: a tree has one first cycle of references, so that its entries are refused with no other.
pub fn first_cycle_is_one()
    ensures { (t : Shape) (a b : List Node) → IsFirstCycle t a → IsFirstCycle t b → a ≡ b }
{}
