ghost use Rattle.std.specs.Prelude.{◌≡◌, ◌≤◌, ◌+◌, ◌*◌, length};
ghost use Rattle.std.specs.List.{list_all};
ghost use Rattle.ut_text.specs.ByteClasses as byte;
ghost use Rattle.kconf_lines.specs.HelpTexts as spec;
ghost use Rattle.kconf_lines.specs.Reading as inner;

use ut_text::is_blank;

/// The column after a blank.
fn column_after(column: usize, blank: u8) -> usize
    requires { column ≤ 34359738360 }
    ensures value { result ≡ spec.column_after column blank }
    ensures near { result ≤ column + 8 }
{
    if blank == b'\t' {
        (column / 8 + 1) * 8
    } else {
        column + 1
    }
}

/// The column of the first byte that is no blank, where a tab goes to the next multiple of 8.
pub fn indentation(line: &[u8]) -> usize
    requires { length line.now ≤ 4294967295 }
    ensures { result ≡ spec.indented_from 0 line.now }
{
    let mut column = 0;
    for byte in line {
        if !is_blank(*byte) {
            return column;
        }
        column = column_after(column, *byte);
    }
    column
}

/// A line of blanks alone.
fn is_empty_line(line: &[u8]) -> bool
    ensures { result ≡ list_all byte.is_blank line.now }
{
    line.iter().all(|b| is_blank(*b))
}

/// Whether a line belongs to the help text with this indentation, if it is known.
pub fn belongs(least: Option<usize>, line: &[u8]) -> bool
    requires { length line.now ≤ 4294967295 }
    ensures { result ≡ inner.text_belongs least line.now }
{
    match least {
        None => is_empty_line(line),
        Some(least) => is_empty_line(line) || least <= indentation(line),
    }
}
