ghost use Rattle.std.specs.Prelude.{◌≡◌, ◌≤◌, ◌++◌, List, [], length, unwrap_or, option_to_list, OnOk, IfOk, IfErr};
ghost use Rattle.cpp_directives.specs.Chains.{Earlier};
ghost use Rattle.cpp_directives.specs.Limits.{most_bytes};
ghost use Rattle.cpp_directives.specs.Refusals.{AnswersList};
ghost use Rattle.cpp_directives.specs.Stack.{IsStackOf};
ghost use Rattle.cpp_directives.specs.WellFormed.{IsWellFormed};
ghost use Rattle.cpp_directives.specs.declared.bad.CppBad.TheVariants as bad;
ghost use Rattle.cpp_read.specs.Directives as spec;
ghost use Rattle.cpp_read.specs.Directives.{Read};
ghost use Rattle.cpp_read.specs.SpanSteps.{ReadsLine, ReadsAll, Keeps, marked_at};

use crate::spans::{LineOf, span_of};
use crate::statement::what_of;
use crate::uncommented::{Found, LineText, Uncommented};
use crate::words::{after_white, part_of, split_name, word_of};
use cpp_directives::{CppBad, Directive, OpenChains, What};
use std::alloc::{AllocError, Global};

/// The directives of a text, and the places of the lines of those that are conditional.
#[derive(Drop)]
pub struct Source {
    pub directives: Vec<Directive>,
    pub spans: Vec<LineOf>,
}

/// Whether a directive is conditional.
fn is_conditional(what: &What) -> bool
    ensures { result ≡ spec.is_conditional what.now }
{
    match what {
        What::If(_) | What::Elif(_) | What::Else | What::Endif => true,
        What::Define { .. } | What::Undef { .. } => false,
    }
}

impl Source {
    /// Nothing was read.
    fn new(alloc: Global) -> Source
        ensures { Keeps result [] }
    {
        Source {
            directives: Vec::new(alloc),
            spans: Vec::new(alloc),
        }
    }

    /// Keeps what the line with these places says, if it says something.
    fn keep(&mut self, what: Option<What>, span: LineOf) -> Result<(), CppBad>
        ensures kept { IfOk result (λ u. (rs : List Read) → Keeps self.old rs → Keeps self.new (rs ++ spec.said span (option_to_list what))) }
        ensures memory { IfErr result (λ e. e ≡ bad.Oom) }
    {
        let Some(what) = what else {
            return Ok(());
        };
        keep_span(&mut self.spans, &what, span)?;
        self.directives.push(Directive {
            line: span.line,
            what,
        })?;
        Ok(())
    }
}

/// Keeps the places of a line whose directive is conditional.
fn keep_span(spans: &mut Vec<LineOf>, what: &What, span: LineOf) -> Result<(), AllocError>
    ensures { OnOk result (spans.new.items ≡ spans.old.items ++ spec.own_span what.now span) }
{
    if is_conditional(what) {
        spans.push(span)?;
    }
    Ok(())
}

/// What a line says, and what it does to the chains.
fn read_line(
    alloc: Global,
    chains: &mut OpenChains,
    line: u32,
    text: &[u8],
) -> Result<Option<What>, CppBad>
    ensures { (before : List Earlier) → IsStackOf chains.old before → ReadsLine result chains.new (spec.read_line before line text.now) }
{
    let (word, rest) = split_name(after_white(text));
    let word = word_of(word);
    chains.pass(part_of(word), line)?;
    what_of(alloc, word, rest, line)
}

/// The end of a line, in a text that ends there.
fn end_or(end: Option<u32>, last: u32) -> u32
    ensures { result ≡ unwrap_or end last }
{
    match end {
        Some(end) => end,
        None => last,
    }
}

/// What the lines of a text say.
fn read_source(alloc: Global, bytes: &[u8]) -> Result<Source, CppBad>
    requires { length bytes.now ≤ most_bytes }
    ensures { ReadsAll result (spec.read_of bytes.now) }
{
    let last = bytes.len() as u32;
    let mut uncommented = Uncommented::new(bytes);
    let mut text = LineText::new(alloc);
    let mut chains = OpenChains::new(alloc);
    let mut source = Source::new(alloc);
    let mut start: u32 = 0;
    'lines: loop {
        match uncommented.line(&mut text)? {
            Found::End => break 'lines,
            Found::Other { end } => start = end_or(end, last),
            Found::Sign { line, end } => {
                let end = end_or(end, last);
                let what = read_line(alloc, &mut chains, line, &text.bytes)?;
                source.keep(what, span_of(start, end, line, &text))?;
                start = end;
            }
        }
    }
    chains.end()?;
    Ok(source)
}

/// The conditional directives and macro lines of a source, in order.
///
/// Errors: the first bad line is named, by the first of `CppBad`'s variants that it has; `Unclosed` comes where no
/// line is bad and a chain is open at the text's end, and names the opener of the innermost one; `Oom` where there
/// is no memory.
pub fn directives(alloc: Global, bytes: &[u8]) -> Result<Vec<Directive>, CppBad>
    requires { length bytes.now ≤ most_bytes }
    ensures answer { AnswersList result (spec.directives_of bytes.now) }
    ensures formed { IfOk result (λ list. IsWellFormed list.items) }
{
    let source = read_source(alloc, bytes)?;
    Ok(source.directives)
}

/// The places of the logical lines of a source's conditional directives, in order.
///
/// It refuses a text exactly as `directives` does.
pub fn line_spans(alloc: Global, bytes: &[u8]) -> Result<Vec<LineOf>, CppBad>
    requires { length bytes.now ≤ most_bytes }
    ensures { AnswersList result (spec.spans_of bytes.now) }
{
    let source = read_source(alloc, bytes)?;
    Ok(source.spans)
}
