ghost use Rattle.std.specs.Prelude.{◌≡◌, [], IfOk, OnOk};
ghost use Rattle.clausify.specs.Form as spec;
ghost use Rattle.clausify.specs.Draft.{IsDraft, AreCounted};

use crate::builder::Builder;
use crate::tidy::tidy_each;
use std::alloc::{AllocError, Global};
use ut_logic::{Clause, Lit};

/// For how many clauses of a wish there is room at first.
const WISH_CLAUSES: usize = 16;

/// A clause form on its way: clauses that are put in order, and after them those that are as they were
/// written. So only a few stand as they were written at a time.
#[derive(Drop)]
pub struct Draft {
    pub written: Builder,
    pub clauses: Vec<Clause>,
    /// The literals of the clause that is put in order.
    pub sorted: Vec<Lit>,
}

impl Draft {
    /// No clauses over these variables, and room for so many.
    pub fn new(alloc: Global, vars: u64, room: usize) -> Result<Draft, AllocError>
        ensures draft { IfOk result (λ d. IsDraft (record { vars = vars; clauses = [] }) d.written d.clauses.items) }
        ensures none { IfOk result (λ d. d.written ≡ record { vars = vars; clauses = [] }) }
    {
        Ok(Draft {
            written: Builder::new(alloc, vars),
            clauses: Vec::with_capacity(alloc, room)?,
            sorted: Vec::new(alloc),
        })
    }

    /// These clauses over these variables, all in order, and room for some more.
    pub fn again(alloc: Global, vars: u64, clauses: &[Clause]) -> Result<Draft, AllocError>
        ensures written { IfOk result (λ d. d.written ≡ record { vars = vars; clauses = [] }) }
        ensures clauses { IfOk result (λ d. d.clauses.items ≡ clauses.now) }
    {
        Ok(Draft {
            written: Builder::new(alloc, vars),
            clauses: copied(alloc, clauses)?,
            sorted: Vec::new(alloc),
        })
    }

    /// Puts in order what is as it was written.
    pub fn settle(&mut self, alloc: Global) -> Result<(), AllocError>
        requires { AreCounted self.old.written.clauses }
        ensures draft { OnOk result ((s : spec.Form) → IsDraft s self.old.written self.old.clauses.items → IsDraft s self.new.written self.new.clauses.items) }
        ensures none { OnOk result (self.new.written ≡ record { vars = self.old.written.vars; clauses = [] }) }
    {
        tidy_each(
            alloc,
            &mut self.clauses,
            &mut self.sorted,
            self.written.clauses(),
        )?;
        self.written.clear();
        Ok(())
    }
}

/// The same clauses, and room for those of a wish.
fn copied(alloc: Global, clauses: &[Clause]) -> Result<Vec<Clause>, AllocError>
    ensures { IfOk result (λ copies. copies.items ≡ clauses.now) }
{
    let mut copies = Vec::with_capacity(alloc, clauses.len().saturating_add(WISH_CLAUSES))?;
    for clause in clauses {
        copies.push(clause.copy(alloc)?)?;
    }
    Ok(copies)
}
