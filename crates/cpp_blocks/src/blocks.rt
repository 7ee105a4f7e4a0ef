ghost use Rattle.std.specs.Prelude.{◌≡◌, ◌<◌, ◌≤◌, IfOk, nat_le, true, false, length};
ghost use Rattle.std.specs.List.{position_or_len};
ghost use Rattle.ut_text.specs.Text.{text_eq};
ghost use Rattle.cpp_blocks.specs.PieceIdentity.{piece_eq};
ghost use Rattle.std.specs.List.Sorted.{IsPartitionPoint};
ghost use Rattle.cpp_directives.specs.declared.directive.Directive as declared;
ghost use Rattle.cpp_blocks.specs.Blocks as spec;
ghost use Rattle.cpp_blocks.specs.Mentions as mention;
ghost use Rattle.cpp_blocks.specs.Nesting as lines;
ghost use Rattle.cpp_blocks.specs.Turns as turn;
ghost use Rattle.cpp_directives.specs.WellFormed.{IsWellFormed, lines_rise};

use crate::mentions::{names_of, pieces_of};
use crate::nesting::Nesting;
use crate::pieces::PieceOf;
use cpp_directives::Directive;
use indexmap::IndexSet;
use std::alloc::{AllocError, Global};
use std::marker::Model;
use ut_logic::Text;

/// The blocks of a source, which contracts see as its directives.
///
/// Block 0 is the file; blocks count from 1 by opening directive. Rule: ISO C, "Conditional inclusion";
/// the numbers are this project's rule.
#[derive(Drop)]
pub struct Blocks {
    list: Vec<Directive>,
    parents: Vec<u32>,
    openers: Vec<u32>,
    inner: Vec<u32>,
    names: IndexSet<Text>,
    pieces: IndexSet<PieceOf>,
}

impl Model for Blocks {
    ghost use Rattle.std.specs.Prelude.{List};
    ghost use Rattle.cpp_directives.specs.declared.directive.Directive.{Directive};
    ghost use Rattle.cpp_blocks.specs.Kept.{IsKept};
    ghost use Rattle.cpp_directives.specs.contracts.condition.Cond as e;
    ghost use Rattle.std.specs.Coded.{codes};

    ghost Value = { List Directive };

    ghost coded = { Prim.hlevel (codes, e.the_row.coded) };

    ghost view = { λ b. b.list.items };

    ghost invariant = { λ b. IsKept b.list.items b.parents.items b.openers.items b.inner.items b.names.keys b.pieces.keys };
}

impl Blocks {
    /// The blocks of a list of directives that came from `directives`. The only error is want of memory.
    pub fn build(alloc: Global, list: Vec<Directive>) -> Result<Blocks, AllocError>
        requires { IsWellFormed list.items }
        ensures { IfOk result (λ b. b ≡ list.items) }
    {
        let Nesting {
            parents,
            openers,
            inner,
            ..
        } = Nesting::of(alloc, &list)?;
        let names = names_of(alloc, &list)?;
        let pieces = pieces_of(alloc, &list)?;
        Ok(Blocks {
            list,
            parents,
            openers,
            inner,
            names,
            pieces,
        })
    }

    /// The number of blocks without block 0.
    pub fn count(&self) -> u32
        ensures { result ≡ spec.count_of self.now }
    {
        self.parents.len() as u32
    }

    /// The block round a block from 1 to the count.
    pub fn parent(&self, block: u32) -> u32
        requires first { 1 ≤ block }
        requires last { block ≤ spec.count_of self.now }
        ensures { result ≡ spec.parent_of self.now block }
    {
        self.parents[block as usize - 1]
    }

    /// The place of the opening directive of a block from 1 to the count.
    pub fn opened_by(&self, block: u32) -> u32
        requires first { 1 ≤ block }
        requires last { block ≤ spec.count_of self.now }
        ensures { result ≡ lines.opener_of self.now block }
    {
        self.openers[block as usize - 1]
    }

    /// The innermost block that has a line, counted from 1; block 0 has the lines outside all others.
    pub fn block_at_line(&self, line: u32) -> u32
        ensures { result ≡ lines.block_at self.now line }
    {
        let count = lines_up_to(&self.list, line);
        if count == 0 {
            return 0;
        }
        self.inner[count - 1]
    }

    /// The directives in order.
    pub fn directives(&self) -> &[Directive]
        ensures value { result.now ≡ self.now }
        ensures formed { IsWellFormed self.now }
    {
        self.list.as_slice()
    }

    /// The macro names, numbered from 0 by first appearance; those inside opaque pieces do not count.
    pub fn macro_names(&self) -> &[Text]
        ensures { result.now ≡ mention.names_of self.now }
    {
        self.names.as_slice()
    }

    /// The number of a macro name, or that of names where it is none of them.
    pub fn number_of(&self, name: &Text) -> usize
        ensures { result ≡ position_or_len (text_eq name.now) (mention.names_of self.now) }
    {
        match self.names.get_index_of(name) {
            Some(number) => number,
            None => self.names.len(),
        }
    }

    /// The number of a piece, or that of pieces where it is none of them.
    pub fn piece_number(&self, piece: &PieceOf) -> usize
        ensures { result ≡ position_or_len (piece_eq piece.now) (turn.pieces_of self.now) }
    {
        match self.pieces.get_index_of(piece) {
            Some(number) => number,
            None => self.pieces.len(),
        }
    }

    /// The opaque pieces, numbered from 0 by first appearance.
    pub fn pieces(&self) -> &[PieceOf]
        ensures { result.now ≡ turn.pieces_of self.now }
    {
        self.pieces.as_slice()
    }
}

/// How many directives stand on lines up to this one.
fn lines_up_to(list: &[Directive], line: u32) -> usize
    requires { lines_rise 0 list.now ≡ true }
    ensures within { result ≤ length list.now }
    ensures parts { IsPartitionPoint (λ (d : declared.Directive). nat_le d.line line ≡ true) (λ (d : declared.Directive). nat_le d.line line ≡ false) list.now result }
{
    list.partition_point(|d| d.line <= line)
}
