//! Laws of a report's lines, for the crates above.

ghost use Rattle.report_lines.specs.Verdicts.{LinesAreRight};

/// Law: the lines of a right verdict are those of the report of a run.
pub fn lines_are_right()
    ensures { LinesAreRight }
{}
