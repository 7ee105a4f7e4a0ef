ghost use Rattle.std.specs.Prelude.{◌↔◌, ◌≡◌, ◌&&◌, not};
ghost use Rattle.ut_case.specs.declared.question.Ask.TheVariants.{Selected, Dropped};
ghost use Rattle.ut_case.specs.declared.question.BlockId as block_id;
ghost use Rattle.ut_case.specs.declared.question.Family as one_family;
ghost use Rattle.ut_case.specs.declared.question.Family.TheVariants.{Whole};
ghost use Rattle.ut_case.specs.Cases.{Case};
ghost use Rattle.ut_case.specs.On.{is_on, parent_in};
ghost use Rattle.ut_case.specs.Problem.{Problem};
ghost use Rattle.ut_case.specs.Questions.{meets, question_on, CanBe, CanNotBe};
ghost use Rattle.ut_case.specs.Verdicts.{IsDead, IsUndead, IsLive};

/// Law: a case meets the question on selecting a block where the block is on, and that on dropping it where its parent is
/// on and the block isn't.
pub fn questions_ask()
    ensures selected { (p : Problem) (b : block_id.BlockId) (f : one_family.Family) (x : Case) → meets p (question_on p b f Selected) x ≡ is_on p f x b }
    ensures dropped { (p : Problem) (b : block_id.BlockId) (f : one_family.Family) (x : Case) → meets p (question_on p b f Dropped) x ≡ (is_on p f x (parent_in p b) && not (is_on p f x b)) }
{}

/// Law: over valid configurations, a block is dead where no case selects it, undead where some case selects it and none
/// drops it, and live where some case selects it and some drops it. Rule: the EuroSys 2011 paper on Undertaker.
pub fn answers_are_verdicts()
    ensures dead { (p : Problem) (b : block_id.BlockId) → CanNotBe p (question_on p b Whole Selected) ↔ IsDead p b }
    ensures undead { (p : Problem) (b : block_id.BlockId) → (CanBe p (question_on p b Whole Selected) × CanNotBe p (question_on p b Whole Dropped)) ↔ IsUndead p b }
    ensures live { (p : Problem) (b : block_id.BlockId) → (CanBe p (question_on p b Whole Selected) × CanBe p (question_on p b Whole Dropped)) ↔ IsLive p b }
{}
