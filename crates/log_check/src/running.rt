ghost use Rattle.std.specs.Prelude.{◌≡◌, ◌↔◌, [], IfOk, IsTrue, MatchBool, OnOk, true};
ghost use Rattle.log_check.specs.Resolution.{HasNoResolvent, IsResolvent};

use crate::resolving::resolve_into;
use std::alloc::{AllocError, Global};
use std::marker::Model;
use std::mem;
use ut_logic::{Clause, Lit};

/// The clause that a chain has given so far.
///
/// Its two buffers change places at each resolution, so that a resolvent takes no memory of its own.
#[derive(Debug, Drop)]
pub struct RunningClause {
    lits: Vec<Lit>,
    spare: Vec<Lit>,
}

impl Model for RunningClause {
    ghost use Rattle.std.specs.Prelude.{List};
    ghost use Rattle.ut_logic.specs.declared.literals.Lit.{Lit};
    ghost use Rattle.ut_logic.specs.Clauses.{IsOrdered};

    ghost Value = { List Lit };

    ghost view = { λ r. r.lits.items };

    ghost invariant = { λ r. IsOrdered r.lits.items };
}

impl RunningClause {
    /// The empty clause.
    pub fn new(alloc: Global) -> RunningClause
        ensures { result ≡ [] }
    {
        RunningClause {
            lits: Vec::new(alloc),
            spare: Vec::new(alloc),
        }
    }

    /// Begins a chain with this clause.
    pub fn start(&mut self, clause: &Clause) -> Result<(), AllocError>
        ensures { OnOk result (self.new ≡ clause.now) }
    {
        self.lits.clear();
        self.lits.extend_from_slice(clause.lits())
    }

    /// Resolves with the clause; whether there is a resolvent.
    pub fn resolve(&mut self, clause: &Clause, pivot: u64) -> Result<bool, AllocError>
        ensures found { IfOk result (λ found.
            MatchBool found (IsResolvent self.old clause.now pivot self.new) (HasNoResolvent self.old clause.now pivot)) }
        ensures only { IfOk result (λ found.
            (r : _) → IsResolvent self.old clause.now pivot r → (found ≡ true) × (self.new ≡ r)) }
    {
        let found = resolve_into(&mut self.spare, self.lits.as_slice(), clause.lits(), pivot)?;
        if !found {
            return Ok(false);
        }
        mem::swap(&mut self.lits, &mut self.spare);
        Ok(true)
    }

    /// Whether it is this clause.
    pub fn is(&self, clause: &Clause) -> bool
        ensures { IsTrue result ↔ (self.now ≡ clause.now) }
    {
        self.lits.as_slice() == clause.lits()
    }
}
