ghost use Rattle.std.specs.Prelude.{◌≡◌, ◌++◌, List, Bool, true, false, IfOk, OnOk, MatchOption};
ghost use Rattle.ut_logic.specs.declared.literals.Lit as declared;
ghost use Rattle.ut_logic.specs.Clauses.{CountFromOne};
ghost use Rattle.clausify.specs.Draft.{AreCounted};
ghost use Rattle.clausify.specs.Tidy.{AddsTidy, AreTidy, IsTidy, has_both_signs};

use crate::lits::Lits;
use std::alloc::{AllocError, Global};
use ut_logic::{Clause, Lit, are_ordered};

/// Adds the clauses that do not have both signs of a variable, each in order.
pub fn tidy_each(
    alloc: Global,
    clauses: &mut Vec<Clause>,
    sorted: &mut Vec<Lit>,
    written: &[Lits],
) -> Result<(), AllocError>
    requires { AreCounted written.now }
    ensures { OnOk result ((front : List (List declared.Lit)) → AreTidy front clauses.old.items → AreTidy (front ++ written.now) clauses.new.items) }
{
    for lits in written {
        add_tidy(alloc, clauses, sorted, lits.as_slice())?;
    }
    Ok(())
}

/// Adds the clause of the literals, unless it has both signs of a variable.
fn add_tidy(
    alloc: Global,
    clauses: &mut Vec<Clause>,
    sorted: &mut Vec<Lit>,
    lits: &[Lit],
) -> Result<(), AllocError>
    requires { CountFromOne lits.now }
    ensures { OnOk result (AddsTidy lits.now clauses.old.items clauses.new.items) }
{
    match tidy(alloc, sorted, lits)? {
        Some(clause) => {
            clauses.push(clause)?;
            Ok(())
        }
        None => Ok(()),
    }
}

/// The literals in order, each once; nothing where both signs of a variable stand among them.
fn tidy(alloc: Global, sorted: &mut Vec<Lit>, lits: &[Lit]) -> Result<Option<Clause>, AllocError>
    requires { CountFromOne lits.now }
    ensures { IfOk result (λ o. MatchOption o (has_both_signs lits.now ≡ true) (λ c. (has_both_signs lits.now ≡ false) × IsTidy lits.now c)) }
{
    sorted.clear();
    sorted.extend_from_slice(lits)?;
    sorted.sort_unstable();
    sorted.dedup();
    if are_ordered(sorted) {
        Ok(Some(Clause::new(alloc, sorted)?))
    } else {
        Ok(None)
    }
}
