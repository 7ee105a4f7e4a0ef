//! A report as it is put together.

ghost use Rattle.std.specs.Prelude.{◌≡◌, ◌<◌, OnOk, length};
ghost use Rattle.ut_case.specs.Problem.{source_at};
ghost use Rattle.report_pieces.specs.Arranging as spec;

use crate::block_text::BlockText;
use crate::piece::Piece;
use report_lines::{Reported, refused_line};
use std::alloc::{AllocError, Global};
use std::collections::VecDeque;
use std::marker::Model;
use ut_case::Word;

/// The pieces so far, the words on the blocks in them, and what is written of the other blocks.
#[derive(Drop)]
pub struct Arranging {
    pub pieces: Vec<Piece>,
    pub words: Vec<Word>,
    pub rest: VecDeque<BlockText>,
}

impl Model for Arranging {
    ghost use Rattle.report_pieces.specs.Arranging.{Arranged};

    ghost Value = { Arranged };

    ghost view = { λ a. record { pieces = a.pieces.items; words = a.words.items; rest = a.rest.items } };
}

impl Arranging {
    /// Puts what is written of the next block, if one is left.
    fn put_block(&mut self) -> Result<(), AllocError>
        ensures { OnOk result (self.new ≡ spec.with_block self.old) }
    {
        match self.rest.pop_front() {
            Some(block) => {
                self.words.push(block.word)?;
                self.pieces.push(block.lines)?;
                Ok(())
            }
            None => Ok(()),
        }
    }

    /// Puts what is written of the next blocks, so many.
    fn put_blocks(&mut self, count: u32) -> Result<(), AllocError>
        ensures { OnOk result (self.new ≡ spec.with_blocks count self.old) }
    {
        for _ in 0..count {
            self.put_block()?;
        }
        Ok(())
    }

    /// Puts what is written of the source with this number: that of its blocks, or why it is refused.
    pub fn put_source<P: Reported>(
        &mut self,
        alloc: Global,
        problem: &P,
        file: u32,
    ) -> Result<(), AllocError>
        requires { file < length (P.problem problem.now).sources }
        ensures { OnOk result (self.new ≡ spec.with_source (source_at (P.problem problem.now) file) self.old) }
    {
        match (problem.blocks(file), problem.refusal(file)) {
            (Some(blocks), _) => self.put_blocks(blocks.count()),
            (None, Some(bad)) => {
                let line = refused_line(alloc, problem.name(file), bad)?;
                self.pieces.push(Piece::new(line))?;
                Ok(())
            }
            (None, None) => Ok(()),
        }
    }
}
