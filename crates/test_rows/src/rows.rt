use crate::escapes::unescaped;
use std::alloc::Global;
use std::test::Fail;

/// Asks for the answer to each row of a table of lines, up to the first that is another one.
///
/// A row is what is given, `=>` and what is wanted, with one blank on either side of `=>`; the blank after it is
/// left out where nothing is wanted. In both parts `\n`, `\t`, `\r`, `\0` and `\\` are taken as in Rust. Empty
/// lines and lines that begin with `-- ` are no rows. An error is that of the answer, a row whose answer is another one (with both), a
/// line without `=>`, or want of memory.
pub fn check_lines<F: Fn(Global, &str) -> Result<String, Fail> + Drop>(
    alloc: Global,
    table: &str,
    answer: F,
) -> Result<(), Fail>
    requires { F.IsAlwaysCallable answer }
{
    for row in table.split('\n') {
        if is_row(row) {
            check_line(alloc, row, &answer)?;
        }
    }
    Ok(())
}

/// Whether a line is a row.
fn is_row(line: &str) -> bool {
    !line.is_empty() && !line.starts_with("-- ")
}

/// A row of one line.
fn check_line<F: Fn(Global, &str) -> Result<String, Fail> + Drop>(
    alloc: Global,
    row: &str,
    answer: &F,
) -> Result<(), Fail>
    requires { F.IsAlwaysCallable answer.now }
{
    let (given, wanted) = row.split_once(" =>").ok_or("a row without =>")?;
    let given = unescaped(alloc, given)?;
    let wanted = unescaped(alloc, wanted.strip_prefix(' ').unwrap_or(wanted))?;
    let found = answer(alloc, given.as_str())?;
    if found.as_str() != wanted.as_str() {
        return Err(Fail::new(format_args!("{row}: {found}")));
    }
    Ok(())
}

/// Asks for the answer to each row of a table of blocks, up to the first that is another one.
///
/// Between two rows stands a line `--`. A row is the lines that are given, a line `=>`, and the lines that are wanted,
/// as they stand, with a newline after each. An error is that of the answer, a row whose answer is another one (with both),
/// a row without `=>`, or want of memory.
pub fn check_blocks<F: Fn(Global, &str) -> Result<String, Fail> + Drop>(
    alloc: Global,
    table: &str,
    answer: F,
) -> Result<(), Fail>
    requires { F.IsAlwaysCallable answer }
{
    for row in table.split("--\n") {
        check_block(alloc, row, &answer)?;
    }
    Ok(())
}

/// A row of several lines.
fn check_block<F: Fn(Global, &str) -> Result<String, Fail> + Drop>(
    alloc: Global,
    row: &str,
    answer: &F,
) -> Result<(), Fail>
    requires { F.IsAlwaysCallable answer.now }
{
    let (given, wanted) = row.split_once("=>\n").ok_or("a row without =>")?;
    let found = answer(alloc, given)?;
    if found.as_str() != wanted {
        return Err(Fail::new(format_args!("{row}: {found}")));
    }
    Ok(())
}
