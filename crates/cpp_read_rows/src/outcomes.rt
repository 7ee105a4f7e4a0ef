//! What a text is read as, in one line.

use cpp_read::{Cond, CppBad, Directive, Gives, What, directives, line_spans};
use std::alloc::{AllocError, Global};
use std::test::Fail;

/// Writes a condition: `D(A)` for `defined A`, `[..]` for a piece, `&(..)` and `|(..)` for lists.
#[cycle(write)]
fn write_cond(out: &mut String, cond: &Cond) -> Result<(), AllocError> {
    match cond {
        Cond::Const(value) => out.push(if *value { '1' } else { '0' }),
        Cond::Defined(name) => write_in(out, "D(", name.text(), ")"),
        Cond::Plain(name) => out.push_str(name.text()),
        Cond::Piece(text) => write_in(out, "[", text.text(), "]"),
        Cond::Neg(inner) => {
            out.push('!')?;
            write_cond(out, inner.get())
        }
        Cond::AllOf(list) => write_list(out, "&(", list.as_slice()),
        Cond::AnyOf(list) => write_list(out, "|(", list.as_slice()),
    }
}

#[cycle(write)]
fn write_list(out: &mut String, mark: &str, list: &[Cond]) -> Result<(), AllocError> {
    out.push_str(mark)?;
    for part in list {
        write_cond(out, part)?;
        out.push(',')?;
    }
    out.push(')')
}

fn write_in(out: &mut String, before: &str, text: &str, after: &str) -> Result<(), AllocError> {
    out.push_str(before)?;
    out.push_str(text)?;
    out.push_str(after)
}

fn mark_of(gives: Gives) -> &'static str {
    match gives {
        Gives::Zero => " 0",
        Gives::Nonzero => " 1",
        Gives::Free => " ?",
    }
}

fn write_what(out: &mut String, what: &What) -> Result<(), AllocError> {
    match what {
        What::If(cond) => {
            out.push_str("if ")?;
            write_cond(out, cond)
        }
        What::Elif(cond) => {
            out.push_str("elif ")?;
            write_cond(out, cond)
        }
        What::Else => out.push_str("else"),
        What::Endif => out.push_str("endif"),
        What::Define { name, gives } => write_in(out, "def ", name.text(), mark_of(*gives)),
        What::Undef { name } => write_in(out, "undef ", name.text(), ""),
    }
}

fn kind_of(bad: CppBad) -> (&'static str, u32) {
    match bad {
        CppBad::Unbalanced { line } => ("unbalanced", line),
        CppBad::ElseTwice { line } => ("else", line),
        CppBad::Depth { line } => ("depth", line),
        CppBad::TooMany { line } => ("many", line),
        CppBad::NoName { line } => ("name", line),
        CppBad::Condition { line } => ("condition", line),
        CppBad::Unclosed { line } => ("unclosed", line),
        CppBad::Oom => ("memory", 0),
    }
}

fn write_all(alloc: Global, list: &[Directive]) -> Result<String, AllocError> {
    let mut out = String::new(alloc);
    for directive in list {
        out.push_str(&directive.line.to_string(alloc)?)?;
        out.push(':')?;
        write_what(&mut out, &directive.what)?;
        out.push(';')?;
    }
    Ok(out)
}

/// The directives of a text, each as `LINE:WHAT;`, or the refusal's kind and line.
pub fn outcome(alloc: Global, text: &[u8]) -> Result<String, Fail> {
    if text.len() > 16_777_216 {
        return Err(Fail::from("a text that is too long"));
    }
    match directives(alloc, text) {
        Ok(list) => Ok(write_all(alloc, &list)?),
        Err(bad) => {
            let (kind, line) = kind_of(bad);
            Ok(format!(in alloc; "{kind} {line}")?)
        }
    }
}

/// The places of the conditional directives of a text, each as `LINE START-END WORD-WORDEND;`, or the refusal's kind
/// and line.
pub fn spans(alloc: Global, text: &[u8]) -> Result<String, Fail> {
    if text.len() > 16_777_216 {
        return Err(Fail::from("a text that is too long"));
    }
    match line_spans(alloc, text) {
        Ok(list) => {
            let mut out = String::new(alloc);
            for of in list.as_slice() {
                let line = format!(in alloc;
                    "{} {}-{} {}-{};",
                    of.line, of.start, of.end, of.word, of.word_end
                )?;
                out.push_str(&line)?;
            }
            Ok(out)
        }
        Err(bad) => {
            let (kind, line) = kind_of(bad);
            Ok(format!(in alloc; "{kind} {line}")?)
        }
    }
}

/// What the condition of `#if` is read as, or the refusal's kind and line.
pub fn condition_of(alloc: Global, condition: &str) -> Result<String, Fail> {
    let source = format!(in alloc; "#if {condition}\n#endif\n")?;
    let all = outcome(alloc, source.as_bytes())?;
    let read = all.as_str();
    let read = read.strip_prefix("1:if ").unwrap_or(read);
    let read = read.strip_suffix(";2:endif;").unwrap_or(read);
    Ok(String::from_str(alloc, read)?)
}

/// The text of a row: its front, its part as often as it says, and its end.
pub fn repeated(alloc: Global, row: &str) -> Result<String, Fail> {
    let mut fields = row.split('|');
    let front = fields.next().ok_or("a front")?;
    let part = fields.next().ok_or("a part")?;
    let count = fields.next().ok_or("a count")?;
    let end = fields.next().ok_or("an end")?;
    let count = count.parse::<usize>().map_err(|_| "a count")?;
    let parts = part.repeat(alloc, count)?;
    Ok(format!(in alloc; "{front}{parts}{end}")?)
}
