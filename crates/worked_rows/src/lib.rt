//! Worked rows: what the definitions say of small texts that a reader can follow by hand.
//!
//! Each function is a law and has an empty body: its contract names a Kconfig text or a model text, sources and
//! the words on their blocks, and the proof goes from the definitions of validity, of a run, of
//! the verdicts and of the report alone. The rules are those that these definitions name; the texts
//! are this project's own. No contract here speaks of a program.
//!
//! The promise to the crates above: none; the laws show that the definitions mean what they should.
#![tactic(auto)]

mod laws;

pub use laws::{
    contrary_block, dependent_block, empty_source, group_of_a_choice, members_of_a_choice,
    model_text, modules_on, one_answer, one_chain, selected_block, three_files, undead_block,
    undecided_block, undeclared_macro, undeclared_name, written_number,
};
