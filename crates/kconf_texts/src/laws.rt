//! Laws of definitions. Each function does nothing, and its contract is the law.

ghost use Rattle.std.specs.Prelude.{List};
ghost use Rattle.ut_text.specs.Bytes.{Bytes};
ghost use Rattle.kconf_entries.specs.declared.entries.Var.{Var};
ghost use Rattle.kconf_lines.specs.Lines.{Line};
ghost use Rattle.kconf_statements.specs.EntryLines.{Before};
ghost use Rattle.kconf_texts.specs.Texts.{Sourcing};
ghost use Rattle.kconf_texts.specs.Laws.{BeginsAccepted, IsReadInOrder};

/// A refusal does not depend on later lines.
pub fn lines_are_read_in_order()
    ensures { (vars : List Var) (root : Bytes) (sourcing : Sourcing) (file : Bytes) (front rest : List Line) (before : Before)
        → IsReadInOrder vars root sourcing file front rest before }
{}

/// Lines that are not refused begin an accepted text.
pub fn lines_that_are_not_refused_begin_an_accepted_text()
    ensures { (vars : List Var) (root : Bytes) (sourcing : Sourcing) (file : Bytes) (front : List Line) (before : Before)
        → BeginsAccepted vars root sourcing file front before }
{}
