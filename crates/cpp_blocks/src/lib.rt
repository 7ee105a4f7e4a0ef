//! The conditional groups of a C source, and what a run of its directives turns on.
//!
//! In go the directives of one source, out come its blocks with their parents and lines, its macro names and
//! opaque pieces, and the facts of its blocks and macro states for a solver. The rules are those of ISO C,
//! "Conditional inclusion" and "Macro replacement"; the three states of a macro, numbers and facts are this
//! project's.
//!
//! A contract sees `Blocks` as the list of its directives. The promise to the crates above: for each choice of
//! starts and free truths the facts have exactly one solution, and it is the run.
#![tactic(auto)]

mod blocks;
mod conditions;
mod facts;
mod gathered;
mod groups;
mod laws;
mod mentions;
mod nesting;
mod pieces;
mod place;
mod run_blocks;
mod run_states;
mod running;
mod shared;
mod source_facts;
mod starts;
mod state;
mod turns;

pub use blocks::Blocks;
pub use cpp_directives::is_well_formed;
pub use laws::{
    facts_are_orderly, facts_are_the_run, facts_list_their_own, facts_mention_their_own,
    lines_matter_where_truths_are_free, names_pieces_and_lines_are_once,
    runs_rest_on_what_is_named,
};
pub use pieces::PieceOf;
pub use running::{RunStart, blocks_on};
pub use source_facts::block_facts;
pub use starts::{BuiltOf, StartOf};
pub use state::MacroState;
