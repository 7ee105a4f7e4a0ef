//! The one line on the error output, with its newline.

ghost use Rattle.std.specs.Prelude.{◌≡◌, ◌++◌, ◌∷◌, [], IfOk, OnOk};
ghost use Rattle.ut_text.specs.Bytes.{newline};
ghost use Rattle.undertaker_run.specs.Refusals as spec;

use crate::bad::Bad;
use itoa::Buffer;
use std::alloc::{AllocError, Global};
use ut_base::{Limit, Name};
use ut_words::UsageKind;

/// The word of a usage kind.
fn usage_word(kind: UsageKind) -> &'static str
    ensures { result.now ≡ spec.usage_word kind }
{
    match kind {
        UsageKind::Words => "words",
        UsageKind::Job => "job",
        UsageKind::Number => "number",
        UsageKind::Style => "style",
        UsageKind::Var => "var",
        UsageKind::Needs => "needs",
        UsageKind::File => "file",
    }
}

/// `undertaker: usage: KIND`.
fn usage(alloc: Global, kind: UsageKind) -> Result<Vec<u8>, AllocError>
    ensures { IfOk result (λ l. l.items ≡ spec.usage_line (spec.usage_word kind)) }
{
    let mut text = Vec::from_slice(alloc, b"undertaker: usage: ")?;
    text.extend_from_slice(usage_word(kind).as_bytes())?;
    Ok(text)
}

/// `FILE: WHAT`.
fn named(alloc: Global, file: &Name, what: &str) -> Result<Vec<u8>, AllocError>
    ensures { IfOk result (λ l. l.items ≡ spec.named_line file.now what.now) }
{
    let mut text = Vec::from_slice(alloc, file.text().as_bytes())?;
    text.extend_from_slice(b": ")?;
    text.extend_from_slice(what.as_bytes())?;
    Ok(text)
}

/// `FILE:LINE: WHAT`.
fn placed(alloc: Global, file: &Name, line: u32, what: &str) -> Result<Vec<u8>, AllocError>
    ensures { IfOk result (λ l. l.items ≡ spec.placed_line file.now line what.now) }
{
    let mut buffer = Buffer::new();
    let mut text = Vec::from_slice(alloc, file.text().as_bytes())?;
    text.push(b':')?;
    text.extend_from_slice(buffer.format(line).as_bytes())?;
    text.extend_from_slice(b": ")?;
    text.extend_from_slice(what.as_bytes())?;
    Ok(text)
}

/// `limit: WHAT COUNT`.
fn passed(alloc: Global, what: Limit, count: u64) -> Result<Vec<u8>, AllocError>
    ensures { IfOk result (λ l. l.items ≡ spec.limit_line what count) }
{
    let mut buffer = Buffer::new();
    let mut text = Vec::from_slice(alloc, b"limit: ")?;
    text.extend_from_slice(what.word().as_bytes())?;
    text.push(b' ')?;
    text.extend_from_slice(buffer.format(count).as_bytes())?;
    Ok(text)
}

/// The line of a refusal without its newline.
fn line_of(alloc: Global, bad: &Bad) -> Result<Vec<u8>, AllocError>
    ensures { IfOk result (λ l. l.items ≡ spec.line_of bad.now) }
{
    match bad {
        Bad::Usage(kind) => usage(alloc, *kind),
        Bad::Line { file, line, kind } => placed(alloc, file, *line, kind.word()),
        Bad::Missing { file } => named(alloc, file, "missing"),
        Bad::ReadFault { file } => named(alloc, file, "read fault"),
        Bad::TooLarge { what, count } => passed(alloc, *what, *count),
        Bad::Oom => Vec::from_slice(alloc, b"memory"),
    }
}

/// The line of a refusal. The only error is want of memory.
pub(crate) fn whole_line(alloc: Global, bad: &Bad) -> Result<Vec<u8>, AllocError>
    ensures { IfOk result (λ l. l.items ≡ spec.line_of bad.now ++ newline ∷ []) }
{
    let mut line = line_of(alloc, bad)?;
    line.push(b'\n')?;
    Ok(line)
}
