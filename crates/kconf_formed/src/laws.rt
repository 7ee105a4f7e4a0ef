//! Laws of the definition of reading. Each function does nothing, and its contract is the law.

ghost use Rattle.std.specs.Prelude.{ℕ, List, Result, IfOk};
ghost use Rattle.ut_text.specs.Bytes.{Bytes};
ghost use Rattle.ut_base.specs.Plans.{plan};
ghost use Rattle.ut_base.specs.Reading.{Reads, Stand};
ghost use Rattle.kconf_entries.specs.declared.entries.Var.{Var};
ghost use Rattle.kconf_entries.specs.declared.entries.Entries.{Entries};
ghost use Rattle.kconf_texts.specs.declared.bad.KconfBad.{KconfBad};
ghost use Rattle.kconf_texts.specs.Errors.{kconf_errors};
ghost use Rattle.kconf_texts.specs.Texts.{tree_plan};
ghost use Rattle.kconf_formed.specs.ReadEntries.{AreFormedEntries};

/// Law: the entries that are read have flat lists, at most 512 negations and lists one inside another in an expression,
/// names of letters, digits and `_`, and choices that are bool, tristate or without a type.
pub fn entries_that_are_read_are_formed()
    ensures { (vars : List Var) (root : Bytes) (old new : Stand) (used now : ℕ) (read : Result Entries KconfBad)
        → Reads (plan kconf_errors (tree_plan vars root)) old new used now read → IfOk read AreFormedEntries }
{}
