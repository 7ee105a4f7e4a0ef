ghost use Rattle.std.specs.Prelude.{◌≡◌, ◌+◌, ◌++◌, ◌<◌, ◌^◌, length, decimal, All, IfOk, OnOk};
ghost use Rattle.std.specs.List.{flat_map};
ghost use Rattle.log_check.specs.DerivationText.{IsPair, IsStep, IsTextOf, chain_text, literal_text, pair_text, step_text, text_of};

use crate::derivations::{Chain, Derivation, DerivationLine, PivotOf};
use itoa::Buffer;
use std::alloc::{AllocError, Global};
use ut_logic::{Cnf, Lit};

fn push_number(text: &mut Vec<u8>, number: u64) -> Result<(), AllocError>
    ensures text { OnOk result (text.new.items ≡ text.old.items ++ decimal number) }
    ensures fits { number < 2 ^ 64 }
{
    let mut digits = Buffer::new();
    text.extend_from_slice(digits.format(number).as_bytes())
}

fn push_literal(text: &mut Vec<u8>, lit: Lit) -> Result<(), AllocError>
    ensures text { OnOk result (text.new.items ≡ text.old.items ++ literal_text lit) }
    ensures fits { lit.var < 2 ^ 64 }
{
    if !lit.positive {
        text.extend_from_slice(b"-")?;
    }
    push_number(text, lit.var)?;
    text.extend_from_slice(b" ")
}

fn push_pair(text: &mut Vec<u8>, pair: PivotOf) -> Result<(), AllocError>
    ensures text { OnOk result (text.new.items ≡ text.old.items ++ pair_text pair) }
    ensures fits { IsPair pair }
{
    text.extend_from_slice(b" ")?;
    push_number(text, pair.pivot)?;
    text.extend_from_slice(b" ")?;
    push_number(text, pair.clause)
}

fn push_literals(text: &mut Vec<u8>, lits: &[Lit]) -> Result<(), AllocError>
    ensures text { OnOk result (text.new.items ≡ text.old.items ++ flat_map literal_text lits.now) }
    ensures fit { OnOk result (All (λ (l : _). l.var < 2 ^ 64) lits.now) }
{
    for lit in lits {
        push_literal(text, *lit)?;
    }
    Ok(())
}

fn push_chain(text: &mut Vec<u8>, chain: &Chain) -> Result<(), AllocError>
    ensures text { OnOk result (text.new.items ≡ text.old.items ++ chain_text chain.now) }
    ensures first { chain.now.first < 2 ^ 64 }
    ensures fit { OnOk result (All IsPair chain.now.pairs) }
{
    push_number(text, chain.first)?;
    for pair in chain.pairs.as_slice() {
        push_pair(text, *pair)?;
    }
    Ok(())
}

/// Appends a line of a derivation to a text, as the step with this number and without a newline.
///
/// The only error is want of memory, after which a part of the step may stand at the end of the text. This project's rule.
pub fn push_step(text: &mut Vec<u8>, number: u64, line: &DerivationLine) -> Result<(), AllocError>
    ensures text { OnOk result (text.new.items ≡ text.old.items ++ step_text number line.now) }
    // So it is read back as the same number and line.
    ensures grammar { OnOk result (IsStep number line.now (step_text number line.now)) }
{
    text.extend_from_slice(b" step ")?;
    push_number(text, number)?;
    text.extend_from_slice(b": ")?;
    push_literals(text, line.result.lits())?;
    text.extend_from_slice(b"0 via ")?;
    push_chain(text, &line.chain)
}

/// The text of the derivation, in which its lines go on with the numbers of the form's clauses.
///
/// The only error is want of memory. This project's rule.
pub fn derivation_text(alloc: Global, cnf: &Cnf, d: &Derivation) -> Result<Vec<u8>, AllocError>
    ensures text { IfOk result (λ text. text.items ≡ text_of (length cnf.now.clauses + 1) d.now.lines) }

    // So it is read back as the same derivation.
    ensures grammar { IfOk result (λ text. IsTextOf (length cnf.now.clauses + 1) d.now.lines text.items) }
{
    let mut text = Vec::new(alloc);
    let count = cnf.clauses.as_slice().len();
    let lines = d.lines.as_slice();
    for at in 0..lines.len() {
        push_step(&mut text, (count + at) as u64 + 1, &lines[at])?;
        text.extend_from_slice(b"\n")?;
    }
    Ok(text)
}
