//! Laws of definitions. Each function does nothing, and its contract is the law.

ghost use Rattle.kconf_statements.specs.EntryLines.{Before};
ghost use Rattle.kconf_statements.specs.Laws.{HaveChoices, StaysEnclosed};

/// What encloses a place encloses what follows, as long as no end word ends it.
pub fn lines_enclose_until_their_end_word()
    ensures { (later before : Before) → StaysEnclosed later before }
{}

/// Each choice that a config names exists.
pub fn named_choices_exist()
    ensures { (before : Before) → HaveChoices before }
{}
