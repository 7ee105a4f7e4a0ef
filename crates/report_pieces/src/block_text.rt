use crate::piece::Piece;
use ut_case::Word;

/// What is written of one block: its word, and its lines.
#[derive(Drop)]
pub struct BlockText {
    pub word: Word,
    pub lines: Piece,
}
