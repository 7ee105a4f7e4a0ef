ghost use Rattle.std.specs.Prelude.{◌≡◌, ◌↔◌, List, IfOk, IsTrue};
ghost use Rattle.ut_logic.specs.declared.formula.Formula as formulas;
ghost use Rattle.ut_logic.specs.declared.facts.Fact as facts;
ghost use Rattle.clausify.specs.Order.{AreListed, AreOver, facts_of, items_of};
ghost use Rattle.clausify.specs.Begun.{IsBegun, IsFormOf};

use crate::chosen::chosen;
use crate::draft::Draft;
use crate::items::items_of;
use crate::listed::all_among;
use crate::stages::drafted;
use crate::variables::note_symbols;
use crate::wish::with_wish;
use indexmap::IndexSet;
use model_slice::{FindFact, Slice, SymbolRoom};
use std::alloc::{AllocError, Global};
use std::marker::Model;
use ut_logic::{Clause, Cnf, Formula, Item};

/// The clause form of a slice's facts, and of formulas that are held before them, to which wishes are added: it
/// is made once, and each wish has a clause form of its own, with this in front.
#[derive(Drop)]
pub struct FactForm {
    items: IndexSet<Item>,
    vars: u64,
    clauses: Vec<Clause>,
}

impl Model for FactForm {
    ghost use Rattle.clausify.specs.Begun.{Begun, IsSomeBegun};

    ghost Value = { Begun };

    ghost view = { λ f. record { items = f.items.keys; vars = f.vars; clauses = f.clauses.items } };

    ghost invariant = { λ f. IsSomeBegun (record { items = f.items.keys; vars = f.vars; clauses = f.clauses.items }) };
}

impl FactForm {
    /// The form of the facts of the slice's nodes, in the order of these nodes, and of what is held before them.
    /// The only error is want of memory.
    ///
    /// Each item that is mentioned is listed in one of the facts.
    pub fn of<S: FindFact>(
        alloc: Global,
        store: &S,
        room: &mut SymbolRoom,
        held: &[Formula],
        slice: &Slice,
    ) -> Result<FactForm, AllocError>
        requires listed { AreListed (facts_of (S.facts store.now) slice.now.nodes) }
        requires held { AreOver (items_of (facts_of (S.facts store.now) slice.now.nodes)) held.now }
        ensures { IfOk result (IsBegun held.now (facts_of (S.facts store.now) slice.now.nodes)) }
    {
        let facts = chosen(alloc, store, slice.nodes.as_slice())?;
        let items = items_of(alloc, &facts, &[])?;
        note_symbols(items.as_slice(), room);
        let draft = drafted(alloc, &items, room, held, &facts)?;
        Ok(FactForm {
            items,
            vars: draft.written.vars(),
            clauses: draft.clauses,
        })
    }

    /// The clause form with a wish over the form's items. The only error is want of memory.
    pub fn with_wish(&self, alloc: Global, wish: &[Formula]) -> Result<Cnf, AllocError>
        requires { AreOver self.now.items wish.now }
        ensures items { IfOk result (λ cnf. cnf.items ≡ self.now.items) }
        ensures form { IfOk result (λ cnf. (held : List formulas.Formula) (fs : List facts.Fact) → IsBegun held fs self.now → IsFormOf held fs wish.now cnf.items cnf.vars cnf.clauses) }
    {
        let room = SymbolRoom::new(alloc, 0)?;
        let draft = Draft::again(alloc, self.vars, &self.clauses)?;
        let cnf = with_wish(alloc, &self.items, &room, draft, wish)?;
        Ok(cnf)
    }

    /// Whether each item that the wish mentions is one of the form's, as `with_wish` asks. The only error is
    /// want of memory.
    pub fn has_items_of(&self, alloc: Global, wish: &[Formula]) -> Result<bool, AllocError>
        ensures { IfOk result (λ known. IsTrue known ↔ AreOver self.now.items wish.now) }
    {
        let all = all_among(alloc, &self.items, wish)?;
        Ok(all)
    }
}
