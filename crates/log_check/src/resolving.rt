ghost use Rattle.std.specs.Prelude.{◌≡◌, ◌⊎◌, ◌<◌, ◌≤◌, length, IfOk, MatchBool, MatchOption, Some};
ghost use Rattle.ut_logic.specs.Clauses.{IsOrdered};
ghost use Rattle.log_check.specs.Merging.{IsNext};
ghost use Rattle.log_check.specs.Resolution.{HasNoResolvent, IsResolvent};

use std::alloc::{AllocError, Global};
use ut_logic::{Clause, Lit};

/// Which clause has the lowest variable that is left, and with which signs where both have it.
enum Next {
    Left,
    Right,
    Same,
    Opposite,
}

fn next_of(a: &[Lit], i: usize, b: &[Lit], j: usize) -> Next
    requires left { i ≤ length a.now }
    requires right { j ≤ length b.now }
    requires more { (i < length a.now) ⊎ (j < length b.now) }
    ensures { IsNext a.now b.now i j result }
{
    if i == a.len() {
        return Next::Right;
    }
    if j == b.len() {
        return Next::Left;
    }
    if a[i].var < b[j].var {
        return Next::Left;
    }
    if b[j].var < a[i].var {
        return Next::Right;
    }
    if a[i].positive == b[j].positive {
        Next::Same
    } else {
        Next::Opposite
    }
}

/// Puts the resolvent in the place of what `out` holds; whether there is one.
pub fn resolve_into(
    out: &mut Vec<Lit>,
    a: &[Lit],
    b: &[Lit],
    pivot: u64,
) -> Result<bool, AllocError>
    requires left { IsOrdered a.now }
    requires right { IsOrdered b.now }
    ensures { IfOk result (λ found.
        MatchBool found (IsResolvent a.now b.now pivot out.new.items) (HasNoResolvent a.now b.now pivot)) }
{
    out.clear();
    let mut met = false;
    let mut i = 0;
    let mut j = 0;
    while i < a.len() || j < b.len() {
        match next_of(a, i, b, j) {
            Next::Left => {
                if a[i].var == pivot {
                    return Ok(false);
                }
                out.push(a[i])?;
                i += 1;
            }
            Next::Right => {
                if b[j].var == pivot {
                    return Ok(false);
                }
                out.push(b[j])?;
                j += 1;
            }
            Next::Same => {
                if a[i].var == pivot {
                    return Ok(false);
                }
                out.push(a[i])?;
                i += 1;
                j += 1;
            }
            Next::Opposite => {
                if a[i].var != pivot {
                    return Ok(false);
                }
                met = true;
                i += 1;
                j += 1;
            }
        }
    }
    Ok(met)
}

/// What two clauses give on a pivot: the literals of both but the pivot's.
///
/// Nothing where the pivot doesn't stand in both with opposite signs, or another variable does. The
/// only error is want of memory. Rule: resolution in propositional logic.
pub fn resolve(
    alloc: Global,
    a: &Clause,
    b: &Clause,
    pivot: u64,
) -> Result<Option<Clause>, AllocError>
    ensures found { IfOk result (λ found.
        MatchOption found (HasNoResolvent a.now b.now pivot) (IsResolvent a.now b.now pivot)) }

    // No other clause is one.
    ensures only { IfOk result (λ found. (r : _) → IsResolvent a.now b.now pivot r → found ≡ Some r) }
{
    let mut lits = Vec::new(alloc);
    let found = resolve_into(&mut lits, a.lits(), b.lits(), pivot)?;
    if found {
        Ok(Some(Clause::new(alloc, lits.as_slice())?))
    } else {
        Ok(None)
    }
}
