ghost use Rattle.std.specs.Prelude.{◌≡◌, ◌++◌, IfOk, OnOk};
ghost use Rattle.kconf_entries.specs.Joined as spec;

use crate::expr::Expr;
use sqlite_items::Items;
use std::alloc::{AllocError, Global};
use ut_logic::{Text, Trit};

/// One condition of these members.
pub fn joined(mut list: Vec<Expr>) -> Expr
    ensures { result ≡ spec.joined list.items }
{
    if list.len() > 1 {
        return Expr::And(Items::from_vec(list));
    }
    match list.pop() {
        Some(only) => only,
        None => Expr::Const(Trit::Y),
    }
}

/// Appends copies of these expressions.
pub fn push_each(alloc: Global, list: &mut Vec<Expr>, more: &[Expr]) -> Result<(), AllocError>
    ensures { OnOk result (list.new.items ≡ list.old.items ++ more.now) }
{
    for expr in more {
        list.push(expr.copy(alloc)?)?;
    }
    Ok(())
}

/// Appends copies of what a condition brings to a joined one: nothing for y, the members of an And list.
pub fn push_members(alloc: Global, list: &mut Vec<Expr>, condition: &Expr) -> Result<(), AllocError>
    ensures { OnOk result (list.new.items ≡ list.old.items ++ spec.members_of condition.now) }
{
    match condition {
        Expr::Const(Trit::Y) => Ok(()),
        Expr::And(more) => push_each(alloc, list, more.as_slice()),
        one => {
            list.push(one.copy(alloc)?)?;
            Ok(())
        }
    }
}

/// The condition that all of these names are not n.
pub fn all_of_names(alloc: Global, names: &[Text]) -> Result<Expr, AllocError>
    ensures { IfOk result (λ e. e ≡ spec.all_of_names names.now) }
{
    let mut list = Vec::with_capacity(alloc, names.len())?;
    for name in names {
        list.push(Expr::Name(name.copy(alloc)?))?;
    }
    Ok(joined(list))
}
