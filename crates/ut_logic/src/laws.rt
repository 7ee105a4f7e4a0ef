ghost use Rattle.std.specs.Prelude.{◌≡◌, Bool, map, true};
ghost use Rattle.ut_logic.specs.declared.formula.Formula as formulas;
ghost use Rattle.ut_logic.specs.declared.item.Item as items;
ghost use Rattle.ut_logic.specs.Assign.{is_in};
ghost use Rattle.ut_logic.specs.Renaming.{renamed};
ghost use Rattle.ut_logic.specs.Truth.{mentioned, truth};

/// Law: where two assignments agree on the items that a formula mentions, it has one truth under both.
pub fn truth_rests_on_mentioned_items()
    ensures { (v u : items.Item → Bool) (f : formulas.Formula) →
        ((i : items.Item) → is_in (mentioned f) i ≡ true → v i ≡ u i) → truth v f ≡ truth u f }
{}

/// Law: a renamed formula has the truth of the formula over the truths of the new items, and mentions the new
/// items in the order of the old ones.
pub fn renaming_keeps_truth()
    ensures truth { (r : items.Item → items.Item) (v : items.Item → Bool) (f : formulas.Formula) →
        truth v (renamed r f) ≡ truth (λ i. v (r i)) f }
    ensures mentioned { (r : items.Item → items.Item) (f : formulas.Formula) →
        mentioned (renamed r f) ≡ map r (mentioned f) }
{}
