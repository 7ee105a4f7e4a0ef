ghost use Rattle.std.specs.Prelude.{◌↔◌};
ghost use Rattle.ut_logic.specs.Clauses.{HasNoModel};
ghost use Rattle.log_check.specs.Derivations.{AreTaken, EndsEmpty, Refutes};

/// Law: a list of clauses that some lines refute has no model. Rule: resolution in propositional logic.
pub fn refuted_no_model()
    ensures { (clauses lines : _) → Refutes clauses lines → HasNoModel clauses }
{}

/// Law: lines refute clauses exactly where they can be taken one after another, as `KnownClauses::take` does, and
/// the result of the last one is the empty clause.
pub fn taken_lines_refute()
    ensures { (clauses lines : _) → Refutes clauses lines ↔ (AreTaken clauses lines × EndsEmpty lines) }
{}
