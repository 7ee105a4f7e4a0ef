use kbuild_cond::{FileConds, KbuildBad, golem_text, read_kbuild};
use std::alloc::Global;
use std::test::Fail;
use test_rows::files_of;
use ut_base::{MemFiles, Meter, Name};

/// The line of a refusal.
pub fn refusal_line(alloc: Global, refusal: &KbuildBad) -> Result<String, Fail> {
    let mut line = String::new(alloc);
    match refusal {
        KbuildBad::Syntax { file, line: number } => write!(
            line,
            "{}:{}: kbuild",
            file.text(),
            *number
        )?,
        KbuildBad::Missing { file } => write!(line, "{}: missing", file.text())?,
        KbuildBad::ReadFault { file } => write!(line, "{}: read fault", file.text())?,
        KbuildBad::TooLarge { what, count } => write!(line, "limit: {} {}", what.word(), *count)?,
        KbuildBad::Oom => line.push_str("memory")?,
    }
    Ok(line)
}

/// The files of a text are read from this root text on.
pub fn read_from(
    alloc: Global,
    files: &mut MemFiles,
    root: &str,
) -> Result<Result<FileConds, KbuildBad>, Fail> {
    let root = Name::new(alloc, root)?.ok_or("a name")?;
    let mut meter = Meter::new();
    Ok(read_kbuild(alloc, files, &root, &mut meter))
}

/// The text of the files that are named, or the refusal.
pub fn shown(alloc: Global, read: &Result<FileConds, KbuildBad>) -> Result<String, Fail> {
    match read {
        Ok(conds) => {
            let text = golem_text(alloc, conds)?;
            let mut shown = String::new(alloc);
            shown.push_str(std::str::from_utf8(text.as_slice())?)?;
            Ok(shown)
        }
        Err(refusal) => refusal_line(alloc, refusal),
    }
}

/// What the texts come to, of which the root text is `Makefile`.
pub fn read_among(alloc: Global, texts: &[(&str, &str)], fails: &[u64]) -> Result<String, Fail> {
    let mut files = files_of(alloc, texts, fails)?;
    shown(alloc, &read_from(alloc, &mut files, "Makefile")?)
}

/// What one text comes to, on one line: a space for each newline.
pub fn read_alone(alloc: Global, text: &str) -> Result<String, Fail> {
    let shown = read_among(alloc, &[("Makefile", text)], &[])?;
    let mut line = String::new(alloc);
    let trimmed = shown.as_str().trim_end();
    for c in trimmed.chars() {
        line.push(if c == '\n' { ';' } else { c })?;
    }
    Ok(line)
}

/// The files of a block: each begins with a line `@` and its name.
pub fn files_in<'a>(alloc: Global, given: &'a str) -> Result<Vec<(&'a str, &'a str)>, Fail> {
    let mut texts = Vec::new(alloc);
    for part in given.split('@') {
        if !part.is_empty() {
            texts.push(part.split_once('\n').ok_or("a file without a name")?)?;
        }
    }
    Ok(texts)
}

/// What the files of a block come to.
pub fn read_block(alloc: Global, given: &str) -> Result<String, Fail> {
    let texts = files_in(alloc, given)?;
    let mut shown = read_among(alloc, texts.as_slice(), &[])?;
    if !shown.as_str().is_empty() && !shown.as_str().ends_with('\n') {
        shown.push('\n')?;
    }
    Ok(shown)
}
