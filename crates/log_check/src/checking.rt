ghost use Rattle.std.specs.Prelude.{◌≡◌, ◌↔◌, ℕ, IfOk, Ok};
ghost use Rattle.ut_logic.specs.Clauses.{HasNoModel};
ghost use Rattle.log_check.specs.Derivations.{IsFirstWrong, Refutes};
ghost use Rattle.log_check.specs.Verdicts.{IsVerdict};

use crate::derivations::{Derivation, DerivationLine};
use crate::known::Results;
use std::alloc::{AllocError, Global};
use ut_logic::{Clause, Cnf};

/// What `check` says of a derivation.
#[derive(Clone, Copy, Debug, PartialEq, Eq)]
pub enum Checked {
    /// Each line is right, and the last one is the empty clause.
    Accepted,

    /// The first wrong line, counted from 1, or 0 where there is no line.
    Bad { line: u64 },
}

/// Takes the lines in order, and names the first wrong one.
fn verdict(
    alloc: Global,
    clauses: &[Clause],
    lines: &[DerivationLine],
) -> Result<Checked, AllocError>
    ensures { IfOk result (IsVerdict clauses.now lines.now) }
{
    if lines.is_empty() {
        return Ok(Checked::Bad { line: 0 });
    }
    let mut results = Results::new(alloc);
    for at in 0..lines.len() {
        if !results.take(clauses, &lines[at])? {
            return Ok(Checked::Bad {
                line: at as u64 + 1,
            });
        }
    }
    if lines[lines.len() - 1].result.lits().is_empty() {
        Ok(Checked::Accepted)
    } else {
        Ok(Checked::Bad {
            line: lines.len() as u64,
        })
    }
}

/// Whether the derivation refutes the clause form, or else its first wrong line.
///
/// A line is wrong where its result isn't what its chain gives, where it cites a clause that isn't
/// before it, or where it is the last and not the empty clause. The only error is want of memory.
pub fn check(alloc: Global, cnf: &Cnf, d: &Derivation) -> Result<Checked, AllocError>
    ensures accepted { IfOk result (λ found.
        (found ≡ Checked.Accepted) ↔ Refutes cnf.now.clauses d.now.lines) }
    ensures first { (line : ℕ) → result ≡ Ok (Checked.Bad line) → IsFirstWrong cnf.now.clauses d.now.lines line }

    // What is accepted can't be met.
    ensures no_model { result ≡ Ok Checked.Accepted → HasNoModel cnf.now.clauses }
{
    let found = verdict(alloc, cnf.clauses.as_slice(), d.lines.as_slice())?;
    Ok(found)
}
