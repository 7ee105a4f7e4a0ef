ghost use Rattle.std.specs.Prelude.{◌≡◌, ◌<◌, ◌↔◌, All, IfOk, IfSome, IsTrue, MatchOption, Some, false};
ghost use Rattle.ut_text.specs.Decimals.{begins_with_digit};
ghost use Rattle.ut_logic.specs.Clauses.{IsOrdered};
ghost use Rattle.log_check.specs.DerivationText.{IsStep};
ghost use Rattle.log_check.specs.Reading.{AreLiteralsThen, ArePairs, IsBody, IsChain};

use crate::derivations::{Chain, DerivationLine, PivotOf};
use crate::pieces::{read_head, read_literal, read_pair};
use line_texts::Cursor;
use std::alloc::{AllocError, Global};
use ut_logic::{Clause, Lit, Sequence};

/// Whether the literal comes after these in the order of variables.
fn comes_after(lits: &[Lit], lit: Lit) -> bool
    requires { IsOrdered lits.now }
    ensures { IsTrue result ↔ All (λ (l : _). l.var < lit.var) lits.now }
{
    match lits.last() {
        Some(last) => last.var < lit.var,
        None => true,
    }
}

/// The literals of a step, up to the words after them.
fn read_literals(alloc: Global, cursor: &mut Cursor<'_>) -> Result<Option<Clause>, AllocError>
    ensures { IfOk result (λ found. MatchOption found
        ((c rest : _) → ¬ AreLiteralsThen cursor.old c rest) (λ c. AreLiteralsThen cursor.old c cursor.new)) }
{
    let mut lits: Vec<Lit> = Vec::new(alloc);
    while !cursor.word(b"0 via ") {
        let Some(lit) = read_literal(cursor) else {
            return Ok(None);
        };
        if !comes_after(lits.as_slice(), lit) {
            return Ok(None);
        }
        lits.push(lit)?;
    }
    Ok(Some(Clause::new(alloc, lits.as_slice())?))
}

/// The pairs of a chain, up to the end of the step.
fn read_pairs(
    alloc: Global,
    cursor: &mut Cursor<'_>,
) -> Result<Option<Sequence<PivotOf>>, AllocError>
    requires { begins_with_digit cursor.old ≡ false }
    ensures { IfOk result (λ found. MatchOption found
        ((pairs : _) → ¬ ArePairs cursor.old pairs) (λ pairs. ArePairs cursor.old pairs)) }
{
    let mut pairs: Vec<PivotOf> = Vec::new(alloc);
    while !cursor.is_at_end() {
        let Some(pair) = read_pair(cursor) else {
            return Ok(None);
        };
        pairs.push(pair)?;
    }
    Ok(Some(Sequence::from_vec(pairs)))
}

fn read_chain(alloc: Global, cursor: &mut Cursor<'_>) -> Result<Option<Chain>, AllocError>
    ensures { IfOk result (λ found. MatchOption found
        ((chain : _) → ¬ IsChain cursor.old chain) (λ chain. IsChain cursor.old chain)) }
{
    let Some(first) = cursor.number() else {
        return Ok(None);
    };
    let Some(pairs) = read_pairs(alloc, cursor)? else {
        return Ok(None);
    };
    Ok(Some(Chain { first, pairs }))
}

/// A step after its number.
fn read_body(alloc: Global, cursor: &mut Cursor<'_>) -> Result<Option<DerivationLine>, AllocError>
    ensures { IfOk result (λ found. MatchOption found
        ((line : _) → ¬ IsBody cursor.old line) (λ line. IsBody cursor.old line)) }
{
    let Some(result) = read_literals(alloc, cursor)? else {
        return Ok(None);
    };
    let Some(chain) = read_chain(alloc, cursor)? else {
        return Ok(None);
    };
    Ok(Some(DerivationLine { result, chain }))
}

fn read_number_and_line(
    alloc: Global,
    step: &[u8],
) -> Result<Option<(u64, DerivationLine)>, AllocError>
    ensures { IfOk result (λ found. MatchOption found
        ((n line : _) → ¬ IsStep n line step.now) (λ read. IsStep read.0 read.1 step.now)) }
{
    let mut cursor = Cursor::new(step);
    let Some(number) = read_head(&mut cursor) else {
        return Ok(None);
    };
    let Some(line) = read_body(alloc, &mut cursor)? else {
        return Ok(None);
    };
    Ok(Some((number, line)))
}

/// The number and the line of a derivation that these bytes, without a newline, are the step of; None where they are
/// no step.
///
/// The only error is want of memory. This project's rule.
pub fn read_step(alloc: Global, step: &[u8]) -> Result<Option<(u64, DerivationLine)>, AllocError>
    ensures found { IfOk result (λ found. IfSome found (λ read. IsStep read.0 read.1 step.now)) }

    // So what is written is read back, and a step is never refused.
    ensures only { IfOk result (λ found. (n line : _) → IsStep n line step.now → found ≡ Some (n, line)) }
{
    let found = read_number_and_line(alloc, step)?;
    Ok(found)
}
