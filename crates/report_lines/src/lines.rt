ghost use Rattle.std.specs.Prelude.{◌≡◌, ◌∷◌, ◌++◌, [], IfOk, OnOk};
ghost use Rattle.ut_report.specs.Lines.{block_line, refusal_of, text_of};
ghost use Rattle.ut_report.specs.Lines as spec;

use crate::numbers::push_count;
use crate::words::push_word;
use cpp_directives::CppBad;
use std::alloc::{AllocError, Global};
use ut_case::Word;

/// Appends the line of a block with its newline.
pub fn push_block_line(
    text: &mut Vec<u8>,
    name: &str,
    steps: u64,
    block: u32,
    word: Word,
) -> Result<(), AllocError>
    ensures { OnOk result (text.new.items ≡ text.old.items ++ text_of (block_line name.now steps block word ∷ [])) }
{
    text.extend_from_slice(name.as_bytes())?;
    push_count(text, ".B", u64::from(block))?;
    text.extend_from_slice(b".")?;
    push_word(text, steps, word)?;
    text.extend_from_slice(b"\n")
}

/// The kind of a refusal, and its line.
fn refusal(bad: CppBad) -> (&'static str, u32)
    ensures kind { result.0.now ≡ (refusal_of bad).0 }
    ensures line { result.1 ≡ (refusal_of bad).1 }
{
    match bad {
        CppBad::Unbalanced { line } => ("unbalanced", line),
        CppBad::ElseTwice { line } => ("else", line),
        CppBad::Depth { line } => ("depth", line),
        CppBad::TooMany { line } => ("many", line),
        CppBad::NoName { line } => ("name", line),
        CppBad::Condition { line } => ("condition", line),
        CppBad::Unclosed { line } => ("unclosed", line),
        CppBad::Oom => ("memory", 0),
    }
}

/// Appends the line of a refused source with its newline.
pub fn push_refused_line(text: &mut Vec<u8>, name: &str, bad: CppBad) -> Result<(), AllocError>
    ensures { OnOk result (text.new.items ≡ text.old.items ++ text_of (spec.refused_line name.now bad ∷ [])) }
{
    let (kind, line) = refusal(bad);
    text.extend_from_slice(name.as_bytes())?;
    text.extend_from_slice(b".refused ")?;
    text.extend_from_slice(kind.as_bytes())?;
    push_count(text, " ", u64::from(line))?;
    text.extend_from_slice(b"\n")
}

/// The line of a refused source, with its newline: the kind of its first fault, and the line of it.
///
/// The only error is want of memory. This project's rule.
pub fn refused_line(alloc: Global, name: &str, bad: CppBad) -> Result<Vec<u8>, AllocError>
    ensures { IfOk result (λ text. text.items ≡ text_of (spec.refused_line name.now bad ∷ [])) }
{
    let mut text = Vec::new(alloc);
    push_refused_line(&mut text, name, bad)?;
    Ok(text)
}
