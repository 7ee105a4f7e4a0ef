ghost use Rattle.std.specs.Prelude.{◌<◌, ◌^◌, ℕ, Bool, IfOk, length};
ghost use Rattle.std.specs.List.{AllZip, concat};
ghost use Rattle.ut_report.specs.Report.{IsRunReport};
ghost use Rattle.report_pieces.specs.Blocks as spec;
ghost use Rattle.report_pieces.specs.Blocks.{IsBlockText};

use crate::arranging::Arranging;
use crate::block_text::BlockText;
use crate::piece::Piece;
use report_lines::{Reported, total_line};
use std::alloc::{AllocError, Global};
use std::collections::VecDeque;

/// The pieces of a report one after another, from what is written of each block in order. The only error is want of memory.
///
/// Where what is written of each block is right for a budget of steps, with or without evidence, the pieces together are the
/// report of a run with that budget. This project's rule.
pub fn whole_report<P: Reported>(
    alloc: Global,
    problem: &P,
    blocks: VecDeque<BlockText>,
) -> Result<Vec<Piece>, AllocError>
    requires { length (P.problem problem.now).sources < 2 ^ 32 }
    ensures { IfOk result (λ pieces. (steps : ℕ) (evidence : Bool) → AllZip (IsBlockText (P.problem problem.now) steps evidence) (spec.blocks_of (P.problem problem.now)) blocks.items → IsRunReport (P.problem problem.now) steps evidence (concat pieces.items)) }
{
    let words = Vec::with_capacity(alloc, blocks.len())?;
    let mut arranging = Arranging {
        pieces: Vec::new(alloc),
        words,
        rest: blocks,
    };
    for file in 0..problem.sources() {
        arranging.put_source(alloc, problem, file)?;
    }
    let last = total_line(alloc, &arranging.words)?;
    arranging.pieces.push(Piece::new(last))?;
    Ok(arranging.pieces)
}
