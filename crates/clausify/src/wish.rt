ghost use Rattle.std.specs.Prelude.{◌≡◌, ◌≤◌, List, length, IfOk};
ghost use Rattle.ut_logic.specs.declared.formula.Formula as formulas;
ghost use Rattle.ut_logic.specs.declared.facts.Fact as facts;
ghost use Rattle.ut_logic.specs.Clauses.{AreWithin};
ghost use Rattle.clausify.specs.Order.{AreOver};
ghost use Rattle.clausify.specs.Begun.{IsDrafted, IsFormOf, IsSomeDraft};

use crate::draft::Draft;
use crate::stages::add_formulas;
use crate::variables::Variables;
use indexmap::IndexSet;
use model_slice::SymbolRoom;
use std::alloc::{AllocError, Global};
use ut_logic::{Cnf, Formula, Item};

/// The clause form of what is drafted, with a wish.
pub fn with_wish(
    alloc: Global,
    items: &IndexSet<Item>,
    room: &SymbolRoom,
    mut draft: Draft,
    wish: &[Formula],
) -> Result<Cnf, AllocError>
    requires drafted { IsSomeDraft items.now.keys draft.written draft.clauses.items }
    requires wish { AreOver items.now.keys wish.now }
    ensures items { IfOk result (λ cnf. cnf.items ≡ items.now.keys) }
    ensures form { IfOk result (λ cnf. (held : List formulas.Formula) (fs : List facts.Fact) → IsDrafted held fs items.now.keys draft.written draft.clauses.items → IsFormOf held fs wish.now items.now.keys cnf.vars cnf.clauses) }
{
    let vars = Variables::new(items, room);
    add_formulas(alloc, &vars, wish, &mut draft)?;
    let cnf = done(alloc, items, draft)?;
    Ok(cnf)
}

/// The clause form of a draft that is done.
fn done(alloc: Global, items: &IndexSet<Item>, draft: Draft) -> Result<Cnf, AllocError>
    requires named { length items.now.keys ≤ draft.written.vars }
    requires in_range { AreWithin draft.written.vars draft.clauses.items }
    ensures vars { IfOk result (λ cnf. cnf.vars ≡ draft.written.vars) }
    ensures items { IfOk result (λ cnf. cnf.items ≡ items.now.keys) }
    ensures clauses { IfOk result (λ cnf. cnf.clauses ≡ draft.clauses.items) }
{
    let list = Vec::from_slice(alloc, items.as_slice())?;
    Ok(Cnf::new(draft.written.vars(), list, draft.clauses))
}
