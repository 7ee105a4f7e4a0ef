ghost use Rattle.std.specs.Prelude.{◌≡◌, ◌⊎◌, ◌+◌, ◌-◌, ◌^◌, ◌<◌, ◌≤◌, ℕ, All, Bool};
ghost use Rattle.ut_logic.specs.Clauses.{AreWithin, IsOrdered};
ghost use Rattle.sat_log.specs.LeastModel.{IsHeldBy, IsLeastModel};
ghost use Rattle.sat_log.specs.Moves.{Moves, State, Steps};
ghost use Rattle.sat_log.specs.Runs.{IsAtModel, IsAtRefutation, IsReached, IsSpent, JumpsTo, start};
ghost use Rattle.sat_log.specs.ToCome.{lists_to_come};

/// Law: a run that is at a model holds the least model by the order of variables.
pub fn model_is_least()
    ensures { (n : ℕ) (clauses : _) (s : State) (v : ℕ → Bool) →
        AreWithin n clauses → IsReached n clauses s → IsAtModel n clauses s → IsHeldBy s.marks v → IsLeastModel n clauses v }
{}

/// Law: the number of lists of marks to come begins at 2^(n + 1) - 2, and is lower right after a step
/// than right after the step before it, whatever backjumps stand between.
pub fn number_falls()
    ensures begins { (n : ℕ) → lists_to_come n start.marks ≡ 2 ^ (n + 1) - 2 }
    ensures falls { (n k : ℕ) (clauses : _) (s mid t : State) →
        AreWithin n clauses → IsReached n clauses s → JumpsTo clauses k s mid → Steps n clauses mid t →
        lists_to_come n t.marks < lists_to_come n s.marks }
{}

/// Law: no list of clauses of n variables is spent at 2^(n + 1) or more.
pub fn steps_are_bounded()
    ensures { (n k : ℕ) (clauses : _) → AreWithin n clauses → 2 ^ (n + 1) ≤ k → ¬ IsSpent n clauses k }
{}

/// Law: a run that is at neither end can go on, by a step or a backjump.
pub fn run_goes_on()
    ensures { (n : ℕ) (clauses : _) (s : State) → AreWithin n clauses → All IsOrdered clauses → IsReached n clauses s →
        ¬ IsAtModel n clauses s → ¬ IsAtRefutation clauses s → (t : State) × Moves n clauses s t }
{}
