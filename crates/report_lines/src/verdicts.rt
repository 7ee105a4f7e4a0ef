ghost use Rattle.std.specs.Prelude.{◌≡◌, ◌++◌, ◌∷◌, ℕ, true, List, IfOk, OnOk};
ghost use Rattle.ut_text.specs.Bytes.{Bytes};
ghost use Rattle.ut_case.specs.Posed.{IsInnerBlockOf};
ghost use Rattle.ut_case.specs.Problem.{source_at};
ghost use Rattle.ut_report.specs.Lines.{text_of};
ghost use Rattle.ut_report.specs.Report.{IsBlockLines};
ghost use Rattle.report_lines.specs.Shown as spec;
ghost use Rattle.report_lines.specs.Shown.{AreLinesOf, AreUnder, FitsIf, HasFitting, group_if};
ghost use Rattle.report_lines.specs.Verdicts.{IsShown};

use crate::groups::push_group;
use crate::laws::lines_are_right;
use crate::lines::push_block_line;
use crate::reported::Reported;
use crate::steps::push_steps;
use crate::words::word_of;
use std::alloc::{AllocError, Global};
use ut_case::{Ask, BlockId, Verdict, Whole};

/// The budget that a verdict names, or 0.
fn steps_of(verdict: &Verdict) -> u64
    ensures { result ≡ spec.steps_of verdict.now }
{
    match verdict {
        Verdict::Dead { .. } | Verdict::Undead { .. } | Verdict::Live { .. } => 0,
        Verdict::Undecided { steps, .. } => *steps,
    }
}

/// Appends the `on` group of a whole, if there is one.
fn push_group_if<P: Reported>(
    text: &mut Vec<u8>,
    problem: &P,
    whole: &Option<Whole>,
) -> Result<(), AllocError>
    requires { FitsIf (P.problem problem.now) whole.now }
    ensures { OnOk result (text.new.items ≡ text.old.items ++ text_of (group_if (P.problem problem.now) whole.now)) }
{
    match whole {
        Some(whole) => push_group(text, problem, whole, true),
        None => Ok(()),
    }
}

/// Appends what shows a verdict on a block, each line with its newline.
fn push_shown<P: Reported>(
    alloc: Global,
    text: &mut Vec<u8>,
    problem: &P,
    block: BlockId,
    verdict: &Verdict,
) -> Result<(), AllocError>
    requires inner { IsInnerBlockOf (P.problem problem.now) block }
    requires fits { HasFitting (P.problem problem.now) verdict.now }
    ensures { OnOk result ((under : List Bytes) × AreUnder (P.problem problem.now) true block verdict.now under × (text.new.items ≡ text.old.items ++ text_of under)) }
{
    match verdict {
        Verdict::Dead { why, .. } => {
            let clauses = problem.clauses(alloc, block, Ask::Selected)?;
            push_steps(text, clauses, why)
        }
        Verdict::Undead { why, on, .. } => {
            push_group(text, problem, on, true)?;
            let clauses = problem.clauses(alloc, block, Ask::Dropped)?;
            push_steps(text, clauses, why)
        }
        Verdict::Live { on, off } => {
            push_group(text, problem, on, true)?;
            push_group(text, problem, off, false)
        }
        Verdict::Undecided { on, .. } => push_group_if(text, problem, on),
    }
}

/// Appends the lines of a verdict on a block, each with its newline.
pub fn push_verdict<P: Reported>(
    alloc: Global,
    text: &mut Vec<u8>,
    problem: &P,
    block: BlockId,
    verdict: &Verdict,
    evidence: bool,
) -> Result<(), AllocError>
    requires inner { IsInnerBlockOf (P.problem problem.now) block }
    requires fits { HasFitting (P.problem problem.now) verdict.now }
    ensures { OnOk result ((lines : List Bytes) × AreLinesOf (P.problem problem.now) evidence block verdict.now lines × (text.new.items ≡ text.old.items ++ text_of lines)) }
{
    let name = problem.name(block.file);
    push_block_line(text, name, steps_of(verdict), block.block, word_of(verdict))?;
    if evidence {
        push_shown(alloc, text, problem, block, verdict)
    } else {
        Ok(())
    }
}

/// The lines of a verdict on a block, each with its newline: the line of the block, and with evidence what shows its word.
///
/// The block is one of a source that isn't refused, from 1 on, and the wholes of the verdict fit the problem. The only error
/// is want of memory. This project's rule.
pub fn verdict_lines<P: Reported>(
    alloc: Global,
    problem: &P,
    block: BlockId,
    verdict: &Verdict,
    evidence: bool,
) -> Result<Vec<u8>, AllocError>
    requires inner { IsInnerBlockOf (P.problem problem.now) block }
    requires fits { HasFitting (P.problem problem.now) verdict.now }
    ensures lines { IfOk result (λ text. (lines : List Bytes) × AreLinesOf (P.problem problem.now) evidence block verdict.now lines × (text.items ≡ text_of lines)) }

    // So the lines of a right verdict are those of the report.
    ensures right { IfOk result (λ text. (steps : ℕ) → IsShown (P.problem problem.now) block steps verdict.now → (lines : List Bytes) × IsBlockLines (P.problem problem.now) steps evidence (source_at (P.problem problem.now) block.file).name block lines × (text.items ≡ text_of lines)) }
{
    lines_are_right();
    let mut text = Vec::new(alloc);
    push_verdict(alloc, &mut text, problem, block, verdict, evidence)?;
    Ok(text)
}
