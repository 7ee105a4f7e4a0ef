ghost use Rattle.std.specs.Prelude.{◌≡◌, OnOk};
ghost use Rattle.clausify.specs.ClauseForm as spec;

use crate::builder::Builder;
use crate::literal::{literal, literal_each};
use crate::lits::{negative, positive};
use crate::variables::Variables;
use std::alloc::{AllocError, Global};
use ut_logic::{Definition, Formula};

/// Adds the clauses of a formula that holds: none for Yes, the empty clause for No, those of each member of
/// an `AllOf`, one of the members' literals for an `AnyOf`, and else one of one literal.
#[cycle(hold)]
pub fn hold(
    alloc: Global,
    vars: &Variables<'_>,
    f: &Formula,
    b: &mut Builder,
) -> Result<(), AllocError>
    ensures { OnOk result (b.new ≡ spec.hold (spec.var_of vars.now) f.now b.old) }
{
    match f {
        Formula::Yes => Ok(()),
        Formula::No => b.add(alloc, &[]),
        Formula::Is(item) => b.add(alloc, &[positive(vars.var(*item))]),
        Formula::Neg(_) => {
            let lit = literal(alloc, vars, f, b)?;
            b.add(alloc, &[lit])
        }
        Formula::AllOf(list) => hold_each(alloc, vars, list.as_slice(), b),
        Formula::AnyOf(list) => {
            let lits = literal_each(alloc, vars, list.as_slice(), b)?;
            b.add(alloc, &lits)
        }
    }
}

/// Adds the clauses of formulas that hold, one after another.
#[cycle(hold)]
pub fn hold_each(
    alloc: Global,
    vars: &Variables<'_>,
    list: &[Formula],
    b: &mut Builder,
) -> Result<(), AllocError>
    ensures { OnOk result (b.new ≡ spec.hold_each (spec.var_of vars.now) list.now b.old) }
{
    for f in list {
        hold(alloc, vars, f, b)?;
    }
    Ok(())
}

/// Adds the clauses that give an item the truth of its formula.
fn define(
    alloc: Global,
    vars: &Variables<'_>,
    definition: &Definition,
    b: &mut Builder,
) -> Result<(), AllocError>
    ensures { OnOk result (b.new ≡ spec.defined (spec.var_of vars.now) definition.now b.old) }
{
    let var = vars.var(definition.item);
    let f = &definition.formula;
    match f {
        Formula::Yes => b.add(alloc, &[positive(var)]),
        Formula::No => b.add(alloc, &[negative(var)]),
        Formula::Is(_) => {
            let lit = literal(alloc, vars, f, b)?;
            b.add_same(alloc, var, lit)
        }
        Formula::Neg(_) => {
            let lit = literal(alloc, vars, f, b)?;
            b.add_same(alloc, var, lit)
        }
        Formula::AllOf(list) => {
            let lits = literal_each(alloc, vars, list.as_slice(), b)?;
            b.add_all(alloc, var, &lits)
        }
        Formula::AnyOf(list) => {
            let lits = literal_each(alloc, vars, list.as_slice(), b)?;
            b.add_any(alloc, var, &lits)
        }
    }
}

/// Adds the clauses of definitions, one after another.
pub fn define_each(
    alloc: Global,
    vars: &Variables<'_>,
    list: &[Definition],
    b: &mut Builder,
) -> Result<(), AllocError>
    ensures { OnOk result (b.new ≡ spec.defined_each (spec.var_of vars.now) list.now b.old) }
{
    for definition in list {
        define(alloc, vars, definition, b)?;
    }
    Ok(())
}
