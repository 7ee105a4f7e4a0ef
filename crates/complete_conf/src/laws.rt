ghost use Rattle.std.specs.Prelude.{List};
ghost use Rattle.ut_logic.specs.declared.node.Node.{Node};
ghost use Rattle.kconf_tree.specs.Orders.{IsOrder};
ghost use Rattle.kconf_tree.specs.Shape.{Shape};
ghost use Rattle.kconf_tree.specs.Valid.{KeepsRules};
ghost use Rattle.kconf_tree.specs.Value.{Configuration, HasValues};
ghost use Rattle.kconf_tree.specs.WellMade.{IsWellMade};
ghost use Rattle.complete_conf.specs.Parts.{AgreeOn, IsClosedPart, IsRest, IsRightPart, Part};

/// Law: however undeclared names are read, some configuration that keeps the rules agrees with a given one on a part
/// that is closed under references and each node of which is right, and has all else without a user's setting.
pub fn part_is_completed()
    ensures { (t : Shape) (order : List Node) (p : Part) (c : Configuration) →
        IsWellMade t → IsOrder t order → HasValues c → IsClosedPart t p → IsRightPart t c p →
        (d : Configuration) × KeepsRules t d × AgreeOn p c d × IsRest t p d }
{}
