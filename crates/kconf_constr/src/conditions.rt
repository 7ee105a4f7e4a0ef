//! The formulas of a condition.

ghost use Rattle.std.specs.Prelude.{◌≡◌, IfOk};
ghost use Rattle.kconf_tree.specs.declared.place.Place.TheVariants.{Condition};
ghost use Rattle.kconf_constr.specs.Scope.{IsRising, whole, with_undeclared};
ghost use Rattle.kconf_constr.specs.Levels.{levels};
ghost use Rattle.kconf_constr.specs.Closed.{Mentions};
ghost use Rattle.kconf_constr.specs.Depth.{IsShallow};
ghost use Rattle.kconf_constr.specs.Folded.{IsFolded};
ghost use Rattle.kconf_constr.specs.Meaning.{SaysNotN, SaysY};

use crate::level::Level;
use crate::scope::Scope;
use kconf_entries::Expr;
use kconf_tree::{Place, Tree};
use std::alloc::{AllocError, Global};
use ut_logic::{Formula, Text};

/// That a condition isn't n, where every undeclared name is n. The only error is out of memory.
pub fn not_n(alloc: Global, tree: &Tree, e: &Expr) -> Result<Formula, AllocError>
    ensures formula { IfOk result (λ f. f ≡ (levels (whole tree.now.shape) Condition e.now).not_n) }
    ensures mentions { IfOk result (Mentions (whole tree.now.shape) e.now) }
    ensures depth { IfOk result (IsShallow e.now) }
    ensures folded { IfOk result IsFolded }
    ensures means { IfOk result (SaysNotN (whole tree.now.shape) e.now) }
{
    Scope::whole(tree).formula_in(alloc, Place::Condition, e, Level::NotN)
}

/// That a condition is y, where every undeclared name is n. The only error is out of memory.
pub fn is_y(alloc: Global, tree: &Tree, e: &Expr) -> Result<Formula, AllocError>
    ensures formula { IfOk result (λ f. f ≡ (levels (whole tree.now.shape) Condition e.now).is_y) }
    ensures mentions { IfOk result (Mentions (whole tree.now.shape) e.now) }
    ensures depth { IfOk result (IsShallow e.now) }
    ensures folded { IfOk result IsFolded }
    ensures means { IfOk result (SaysY (whole tree.now.shape) e.now) }
{
    Scope::whole(tree).formula_in(alloc, Place::Condition, e, Level::IsY)
}

/// That a condition isn't n, where each of these undeclared names, which rise by their bytes, may be y. The only
/// error is out of memory.
pub fn free_not_n(
    alloc: Global,
    tree: &Tree,
    undeclared: &[Text],
    e: &Expr,
) -> Result<Formula, AllocError>
    requires { IsRising undeclared.now }
    ensures formula { IfOk result (λ f. f ≡ (levels (with_undeclared tree.now.shape undeclared.now) Condition e.now).not_n) }
    ensures mentions { IfOk result (Mentions (with_undeclared tree.now.shape undeclared.now) e.now) }
    ensures depth { IfOk result (IsShallow e.now) }
    ensures folded { IfOk result IsFolded }
    ensures means { IfOk result (SaysNotN (with_undeclared tree.now.shape undeclared.now) e.now) }
{
    Scope::with_undeclared(tree, undeclared).formula_in(alloc, Place::Condition, e, Level::NotN)
}
