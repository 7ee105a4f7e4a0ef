//! Laws of definitions. Each function does nothing, and its contract is the law.

ghost use Rattle.std.specs.Prelude.{Bool, List};
ghost use Rattle.ut_text.specs.Bytes.{Bytes};
ghost use Rattle.kconf_lines.specs.Lines.{Line};
ghost use Rattle.kconf_lines.specs.LogicalLines.{first_line};
ghost use Rattle.kconf_lines.specs.Laws.{CutsOneByOne, PassesHelp};

/// The logical lines of a text are cut off one after another: the first, and then those of what it leaves.
pub fn lines_are_cut_off_one_after_another()
    ensures { (begins_help : Bytes → Bool) → CutsOneByOne (first_line begins_help) }
{}

/// The first logical line is the same whichever lines begin help texts; after one that does, the help text is passed.
pub fn help_texts_come_off_the_lines_after()
    ensures { (begins_help : Bytes → Bool) (lines : List Line) → PassesHelp begins_help lines }
{}
