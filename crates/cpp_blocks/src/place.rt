use crate::blocks::Blocks;
use crate::turns::Turns;

/// A place in a source: the number of its file, its blocks, and the macro lines passed so far.
#[derive(Clone, Copy)]
pub struct Place<'a> {
    pub file: u32,
    pub blocks: &'a Blocks,
    pub turns: &'a Turns,
}
