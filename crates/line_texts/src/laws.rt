ghost use Rattle.std.specs.Prelude.{◌≡◌, All};
ghost use Rattle.line_texts.specs.Lines.{HasNoNewline, lines_of, text_of};

/// Law: lines without a newline that are written one after another are the lines of that text.
pub fn lines_are_read_back()
    ensures { (lines : _) → All HasNoNewline lines → lines_of (text_of lines) ≡ lines }
{}
