//! The whole text of a report, in pieces, from what is written of each block.
//!
//! In go a problem, as `Reported` lets it be read, and for each block in order its word and its lines; out come the pieces
//! of the report one after another: the line of each refused source, the lines of each block, and the total line. The
//! texts are this project's rule: they stand in `specs/` of `ut_report`.
//!
//! A contract sees a piece as its bytes. The promise to the crates above: where what is written of each block is right, the
//! pieces together are the report.
#![tactic(auto)]

mod arranging;
mod block_text;
mod blocks;
mod piece;
mod whole;

pub use block_text::BlockText;
pub use blocks::blocks_of;
pub use piece::Piece;
pub use whole::whole_report;
