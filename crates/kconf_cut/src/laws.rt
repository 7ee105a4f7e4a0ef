//! Laws of definitions. Each function does nothing, and its contract is the law.

ghost use Rattle.std.specs.Prelude.{◌≡◌, List, false, Ok};
ghost use Rattle.ut_text.specs.Bytes.{Bytes};
ghost use Rattle.kconf_entries.specs.declared.entries.Var.{Var};
ghost use Rattle.kconf_words.specs.declared.line_words.LineWord.{LineWord};
ghost use Rattle.kconf_lines.specs.Laws.{CutsOneByOne};
ghost use Rattle.kconf_cut.specs.Words.{first_word, has_no_effect, words_of};
ghost use Rattle.kconf_cut.specs.Laws.{GivesBack};

/// The words of a line are cut off one after another: the first, and then those of what it leaves.
pub fn words_are_cut_off_one_after_another()
    ensures { (vars : List Var) → CutsOneByOne (first_word vars) }
{}

/// Words and blanks give a line back up to its `#`, unless the line is without effect.
pub fn words_and_blanks_give_the_line_back()
    ensures { (vars : List Var) (line : Bytes) (ws : List LineWord) → has_no_effect line ≡ false → words_of vars line ≡ Ok ws → GivesBack vars ws line }
{}
