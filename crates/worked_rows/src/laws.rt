ghost use Rattle.std.specs.Prelude.{◌≡◌, ℕ, Bool, true, false, [], ◌∷◌, List, codes};
ghost use Rattle.cpp_blocks.specs.declared.state.MacroState.TheVariants.{Undefined};
ghost use Rattle.ut_logic.specs.declared.item.Item.TheVariants as item;
ghost use Rattle.ut_case.specs.declared.question.Ask.{Ask};
ghost use Rattle.ut_case.specs.declared.question.Ask.TheVariants.{Selected, Dropped};
ghost use Rattle.ut_case.specs.declared.question.BlockId.{BlockId};
ghost use Rattle.ut_case.specs.declared.question.Class.TheVariants as class;
ghost use Rattle.ut_case.specs.declared.question.Family.{Family};
ghost use Rattle.ut_case.specs.declared.question.Family.TheVariants.{Code, Kconfig, Whole};
ghost use Rattle.ut_case.specs.declared.word.Word.{Word};
ghost use Rattle.ut_case.specs.declared.word.Word.TheVariants.{Dead, Live, Undead, Undecided};
ghost use Rattle.ut_case.specs.Cases.{Case, IsCaseOf};
ghost use Rattle.ut_case.specs.Numbering.{IsNumbered};
ghost use Rattle.ut_case.specs.Problem.{OfTree, OfRules, Problem};
ghost use Rattle.ut_case.specs.Starts.{macro_start, free_start, present_if, defined_as};
ghost use Rattle.ut_case.specs.Words.{IsWordOf};
ghost use Rattle.ut_report.specs.Groups.{group_lines};
ghost use Rattle.ut_report.specs.Report.{IsReport, Spent};
ghost use Rattle.worked_rows.specs.Problems.{all_decided, block, none_spent, over, second_block, second_picked, spent_at, three_sources, with_names};
ghost use Rattle.worked_rows.specs.Texts.{asks_twice, backwards, behind_define, both_ways, choosing_tree, contrary, dependent, implied, modular_tree, module_alone, number_tree, repeated, same_twice, selecting_tree, together, two_rules, two_tree, undeclared};

/// Law: a block that asks for a name that is declared nowhere is dead, and its `#else` is undead, both since
/// the name is missing; and that name is the problem's one undeclared name.
pub fn undeclared_name()
    ensures numbered { IsNumbered (with_names (OfTree two_tree) (codes "TYPO" ∷ []) undeclared) }
    ensures dead { (steps : ℕ) → IsWordOf (with_names (OfTree two_tree) (codes "TYPO" ∷ []) undeclared) steps none_spent (block 1) (Dead class.Missing) }
    ensures undead { (steps : ℕ) → IsWordOf (with_names (OfTree two_tree) (codes "TYPO" ∷ []) undeclared) steps none_spent (block 2) (Undead class.Missing) }
    ensures report { (steps : ℕ) → IsReport (with_names (OfTree two_tree) (codes "TYPO" ∷ []) undeclared) steps false all_decided (codes "a.c.B1.missing.globally.dead\na.c.B2.missing.globally.undead\nblocks 2 dead 1 undead 1 live 0 undecided 0\n") }
{}

/// Law: the macro of a name that no Kconfig text names starts in any state in family Code, as the name is read in
/// family Kconfig, and undefined in family Whole.
pub fn undeclared_macro()
    ensures code { (x : Case) → macro_start (OfTree two_tree) Code x 0 0 (codes "CONFIG_TYPO") ≡ free_start x 0 0 }
    ensures kconfig { (x : Case) → macro_start (OfTree two_tree) Kconfig x 0 0 (codes "CONFIG_TYPO") ≡ present_if (x.configuration.undeclared (codes "TYPO")) }
    ensures whole { (x : Case) → IsCaseOf (with_names (OfTree two_tree) (codes "TYPO" ∷ []) undeclared) Whole x → macro_start (OfTree two_tree) Whole x 0 0 (codes "CONFIG_TYPO") ≡ Undefined }
{}

/// Law: in a block that asks for A, one that asks that A is off is dead by the code alone.
pub fn contrary_block()
    ensures live { (steps : ℕ) → IsWordOf (over two_tree contrary) steps none_spent (block 1) Live }
    ensures dead { (steps : ℕ) → IsWordOf (over two_tree contrary) steps none_spent (block 2) (Dead class.Code) }
    ensures report { (steps : ℕ) → IsReport (over two_tree contrary) steps false all_decided (codes "a.c.B1.live\na.c.B2.code.globally.dead\nblocks 2 dead 1 undead 0 live 1 undecided 0\n") }
{}

/// Law: in a block that asks for B, one that asks that A is off is dead by the Kconfig text.
pub fn dependent_block()
    ensures live { (steps : ℕ) → IsWordOf (over two_tree dependent) steps none_spent (block 1) Live }
    ensures dead { (steps : ℕ) → IsWordOf (over two_tree dependent) steps none_spent (block 2) (Dead class.Kconfig) }
    ensures report { (steps : ℕ) → IsReport (over two_tree dependent) steps false all_decided (codes "a.c.B1.live\na.c.B2.kconfig.globally.dead\nblocks 2 dead 1 undead 0 live 1 undecided 0\n") }
{}

/// Law: in a block that asks for A, one that asks for A again is undead by the code alone; in a block that asks
/// for B, one that asks for A is undead by the Kconfig text.
pub fn undead_block()
    ensures repeated { (steps : ℕ) → IsWordOf (over two_tree repeated) steps none_spent (block 2) (Undead class.Code) }
    ensures implied { (steps : ℕ) → IsWordOf (over two_tree implied) steps none_spent (block 2) (Undead class.Kconfig) }
{}

/// Law: where B selects A, and A has no prompt, A is on exactly where B is: a block that asks for one without
/// the other is dead by the Kconfig text.
pub fn selected_block()
    ensures live { (steps : ℕ) → IsWordOf (over selecting_tree backwards) steps none_spent (block 1) Live }
    ensures without_selector { (steps : ℕ) → IsWordOf (over selecting_tree backwards) steps none_spent (block 2) (Dead class.Kconfig) }
    ensures without_selected { (steps : ℕ) → IsWordOf (over selecting_tree dependent) steps none_spent (block 2) (Dead class.Kconfig) }
{}

/// Law: a block that asks for two members of one choice is dead by the Kconfig text.
pub fn members_of_a_choice()
    ensures live { (steps : ℕ) → IsWordOf (over choosing_tree together) steps none_spent (block 1) Live }
    ensures dead { (steps : ℕ) → IsWordOf (over choosing_tree together) steps none_spent (block 2) (Dead class.Kconfig) }
{}

/// Law: a tristate A is never y and m at once, and m only where the modules symbol is on; `CONFIG_A_MODULE` is
/// defined where A is m.
pub fn modules_on()
    ensures y_live { (steps : ℕ) → IsWordOf (over modular_tree both_ways) steps none_spent (block 1) Live }
    ensures y_and_m { (steps : ℕ) → IsWordOf (over modular_tree both_ways) steps none_spent (block 2) (Dead class.Kconfig) }
    ensures m_live { (steps : ℕ) → IsWordOf (over modular_tree module_alone) steps none_spent (block 1) Live }
    ensures m_alone { (steps : ℕ) → IsWordOf (over modular_tree module_alone) steps none_spent (block 2) (Dead class.Kconfig) }
{}

/// Law: the macro of a written int symbol is defined, and its truth is free: a block that asks whether it is
/// defined is undead by the Kconfig text, and one in it that asks for its truth is live.
pub fn written_number()
    ensures start { (x : Case) → macro_start (OfTree number_tree) Whole x 0 0 (codes "CONFIG_HZ") ≡ defined_as (x.environment (item.Truth 0 0)) }
    ensures defined { (steps : ℕ) → IsWordOf (over number_tree asks_twice) steps none_spent (block 1) (Undead class.Kconfig) }
    ensures truth { (steps : ℕ) → IsWordOf (over number_tree asks_twice) steps none_spent (block 2) Live }
{}

/// Law: over a model text that says that `CONFIG_A` asks for `CONFIG_B`, a block that asks for the one without the
/// other is dead by that text.
pub fn model_text()
    ensures live { (steps : ℕ) → IsWordOf (with_names (OfRules two_rules) [] backwards) steps none_spent (block 1) Live }
    ensures dead { (steps : ℕ) → IsWordOf (with_names (OfRules two_rules) [] backwards) steps none_spent (block 2) (Dead class.Kconfig) }
{}

/// Law: a block that asks that A is off is dead by the Kconfig text where its source is built by A, and live where
/// its source is always built; the report says so of both sources, and of a third one that it is refused.
pub fn three_files()
    ensures dead { (steps : ℕ) → IsWordOf three_sources steps none_spent (block 1) (Dead class.Kconfig) }
    ensures live { (steps : ℕ) → IsWordOf three_sources steps none_spent (second_block 1) Live }
    ensures report { (steps : ℕ) → IsReport three_sources steps false all_decided (codes "a.c.B1.kconfig.globally.dead\nb.c.B1.live\nc.c.refused unclosed 1\nblocks 2 dead 1 undead 0 live 1 undecided 0\n") }
{}

/// Law: after a `#define` of a macro, a block that asks for it is undead and its `#else` dead; and an `#elif`
/// that asks for the same as the `#ifdef` before it is dead; all by the code alone.
pub fn one_chain()
    ensures defined { (steps : ℕ) → IsWordOf (over two_tree behind_define) steps none_spent (block 1) (Undead class.Code) }
    ensures not_defined { (steps : ℕ) → IsWordOf (over two_tree behind_define) steps none_spent (block 2) (Dead class.Code) }
    ensures same_again { (steps : ℕ) → IsWordOf (over two_tree same_twice) steps none_spent (block 2) (Dead class.Code) }
{}

/// Law: a block is undecided where its selection wasn't decided, or where it can be selected and its dropping
/// wasn't decided; the report names the question and the steps of the run.
pub fn undecided_block()
    ensures selected { (steps : ℕ) → IsWordOf (over two_tree contrary) steps (spent_at Selected) (block 1) (Undecided Selected) }
    ensures dropped { (steps : ℕ) → IsWordOf (over two_tree contrary) steps (spent_at Dropped) (block 1) (Undecided Dropped) }
    ensures report { IsReport (over two_tree contrary) 0 false (λ b. spent_at Selected) (codes "a.c.B1.undecided selected 0\na.c.B2.undecided selected 0\nblocks 2 dead 0 undead 0 live 0 undecided 2\n") }
{}

/// Law: the report on an empty source is the total line alone.
pub fn empty_source()
    ensures { (steps : ℕ) → IsReport (over two_tree []) steps false all_decided (codes "blocks 0 dead 0 undead 0 live 0 undecided 0\n") }
{}

/// Law: a group names each symbol that isn't n, and each choice whose mode isn't n by its number.
pub fn group_of_a_choice()
    ensures { group_lines (over choosing_tree []) false second_picked ≡ codes " off: CONFIG_B=y" ∷ codes " off-choice: 1 y" ∷ [] }
{}

/// Law: for a block at most one word is right, and without evidence at most one text is the report of a problem,
/// whatever questions weren't decided. So every other word and text of the rows is wrong.
pub fn one_answer()
    ensures word { (p : Problem) (steps : ℕ) (spent : Family → Ask → Bool) (b : BlockId) (w v : Word) → IsWordOf p steps spent b w → IsWordOf p steps spent b v → w ≡ v }
    ensures report { (p : Problem) (steps : ℕ) (spent : Spent) (text other : List ℕ) → IsReport p steps false spent text → IsReport p steps false spent other → text ≡ other }
{}
