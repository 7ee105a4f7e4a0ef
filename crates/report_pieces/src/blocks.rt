ghost use Rattle.std.specs.Prelude.{◌≡◌, ◌++◌, ◌<◌, ◌^◌, IfOk, OnOk, All, length};
ghost use Rattle.ut_case.specs.Posed.{IsInnerBlockOf};
ghost use Rattle.ut_case.specs.Problem.{source_at};
ghost use Rattle.report_pieces.specs.Blocks as spec;

use report_lines::Reported;
use std::alloc::{AllocError, Global};
use ut_case::BlockId;

/// Appends the blocks of a source with so many, from 1 on.
fn push_blocks(all: &mut Vec<BlockId>, file: u32, count: u32) -> Result<(), AllocError>
    ensures { OnOk result (all.new.items ≡ all.old.items ++ spec.blocks_after file 0 count) }
{
    for number in 0..count {
        all.push(BlockId {
            file,
            block: number + 1,
        })?;
    }
    Ok(())
}

/// Appends the blocks of the source with this number, if it isn't refused.
fn push_source<P: Reported>(
    all: &mut Vec<BlockId>,
    problem: &P,
    file: u32,
) -> Result<(), AllocError>
    requires { file < length (P.problem problem.now).sources }
    ensures { OnOk result (all.new.items ≡ all.old.items ++ spec.source_blocks file (source_at (P.problem problem.now) file).read) }
{
    match problem.blocks(file) {
        Some(blocks) => push_blocks(all, file, blocks.count()),
        None => Ok(()),
    }
}

/// The blocks of all sources in order, from 1 on in each, without those of refused sources. The only error is want of memory.
pub fn blocks_of<P: Reported>(alloc: Global, problem: &P) -> Result<Vec<BlockId>, AllocError>
    requires { length (P.problem problem.now).sources < 2 ^ 32 }
    ensures all { IfOk result (λ all. all.items ≡ spec.blocks_of (P.problem problem.now)) }
    ensures inner { IfOk result (λ all. All (IsInnerBlockOf (P.problem problem.now)) all.items) }
{
    let mut all = Vec::new(alloc);
    for file in 0..problem.sources() {
        push_source(&mut all, problem, file)?;
    }
    Ok(all)
}
