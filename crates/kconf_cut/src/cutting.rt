ghost use Rattle.std.specs.Prelude.{◌≡◌, IfOk};
ghost use Rattle.kconf_lines.specs.Cut.{cut};
ghost use Rattle.kconf_cut.specs.Words as spec;
ghost use Rattle.kconf_cut.specs.Reading as inner;

use crate::no_effect::has_no_effect;
use crate::values::Values;
use crate::words::{first_word, is_mark};
use kconf_words::{LineBad, LineWord, SyntaxKind};
use std::alloc::{AllocError, Global};
use ut_text::unblanked;

/// The words of a line after which this is left.
fn whole(words: Vec<LineWord>, rest: &[u8]) -> Result<Vec<LineWord>, LineBad>
    ensures { inner.GivesWords result (spec.all_words words.items rest.now) }
{
    let [byte, ..] = rest else {
        return Ok(words);
    };
    if *byte == b'#' {
        return Ok(words);
    }
    if is_mark(*byte) {
        return Err(LineBad::Syntax(SyntaxKind::Quote));
    }
    Err(LineBad::Syntax(SyntaxKind::Bracket))
}

/// All words at the front, and what is left where no word can be cut off.
#[tactic(auto, using(crate::proofs::WordLemmas::goes_on, crate::proofs::WordLemmas::ends))]
fn cut_words<'t>(
    alloc: Global,
    vars: &Values<'_>,
    line: &'t [u8],
) -> Result<(Vec<LineWord>, &'t [u8]), AllocError>
    ensures { IfOk result (λ p. cut (spec.first_word vars.now) line.now ≡ (p.0.items, p.1.now)) }
{
    let mut words = Vec::new(alloc);
    let mut rest = line;
    'words: while let Some((word, after)) = first_word(alloc, vars, rest)? {
        match words.push(word) {
            Ok(()) => {}
            Err(_) => return Err(AllocError),
        }
        rest = after;
    }
    Ok((words, rest))
}

/// The words of a logical line. A line without effect has none.
///
/// Errors: `Quote` where a quoted word has no end, `Bracket` where a macro call has none, and `Oom`.
pub fn words_of(alloc: Global, vars: &Values<'_>, line: &[u8]) -> Result<Vec<LineWord>, LineBad>
    ensures { inner.GivesWords result (spec.words_of vars.now line.now) }
{
    if has_no_effect(line) {
        return Ok(Vec::new(alloc));
    }
    let (words, rest) = cut_words(alloc, vars, line)?;
    whole(words, unblanked(rest))
}
