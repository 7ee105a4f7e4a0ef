ghost use Rattle.std.specs.Prelude.{◌≡◌, IfOk, OnOk};
ghost use Rattle.clausify.specs.ClauseForm as spec;

use crate::builder::Builder;
use crate::lits::{negated, positive};
use crate::variables::Variables;
use std::alloc::{AllocError, Global};
use ut_logic::{Formula, Lit};

/// The literal of a formula, with the clauses of its inner nodes.
#[cycle(literal)]
pub fn literal(
    alloc: Global,
    vars: &Variables<'_>,
    f: &Formula,
    b: &mut Builder,
) -> Result<Lit, AllocError>
    ensures lit { IfOk result (λ l. l ≡ (spec.literal (spec.var_of vars.now) f.now b.old).0) }
    ensures form { OnOk result (b.new ≡ (spec.literal (spec.var_of vars.now) f.now b.old).1) }
{
    match f {
        Formula::Yes => b.define_all(alloc, &[]),
        Formula::No => b.define_any(alloc, &[]),
        Formula::Is(item) => Ok(positive(vars.var(*item))),
        Formula::Neg(inner) => {
            let lit = literal(alloc, vars, inner.get(), b)?;
            Ok(negated(lit))
        }
        Formula::AllOf(list) => {
            let lits = literal_each(alloc, vars, list.as_slice(), b)?;
            b.define_all(alloc, &lits)
        }
        Formula::AnyOf(list) => {
            let lits = literal_each(alloc, vars, list.as_slice(), b)?;
            b.define_any(alloc, &lits)
        }
    }
}

/// The literals of formulas, one after another.
#[cycle(literal)]
pub fn literal_each(
    alloc: Global,
    vars: &Variables<'_>,
    list: &[Formula],
    b: &mut Builder,
) -> Result<Vec<Lit>, AllocError>
    ensures lits { IfOk result (λ ls. ls.items ≡ (spec.literals (spec.var_of vars.now) list.now b.old).0) }
    ensures form { OnOk result (b.new ≡ (spec.literals (spec.var_of vars.now) list.now b.old).1) }
{
    let mut lits = Vec::with_capacity(alloc, list.len())?;
    for f in list {
        lits.push(literal(alloc, vars, f, b)?)?;
    }
    Ok(lits)
}
