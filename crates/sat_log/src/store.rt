ghost use Rattle.std.specs.Prelude.{◌≡◌, ◌++◌, ◌∷◌, ◌+◌, ◌-◌, ◌^◌, ◌<◌, ◌≤◌, [], length, slice_index_or, take, map, All, IfOk, OnErr, OnOk};
ghost use Rattle.ut_logic.specs.Clauses.{IsClause};
ghost use Rattle.sat_log.specs.Codes.{code_of, literal_of};
ghost use Rattle.sat_log.specs.Stores.{GrowsUpTo, last_end, start_at};

use crate::codes::{code_of, literal_of};
use std::alloc::{AllocError, Global};
use std::marker::Model;
use ut_logic::{Clause, Lit};

/// How many literals fit.
const MOST_LITERALS: usize = 4_294_967_295;

/// Clauses whose literals stand one behind the other, each in 32 bits, with the end of each clause.
#[derive(Drop)]
pub struct Store {
    codes: Vec<u32>,
    ends: Vec<u32>,
}

impl Model for Store {
    ghost use Rattle.std.specs.Prelude.{List};
    ghost use Rattle.ut_logic.specs.declared.literals.Lit.{Lit};

    ghost Value = { List (List Lit) };

    ghost use Rattle.sat_log.specs.Stores.{clauses_from, AreStored};

    ghost view = { λ s. clauses_from 0 s.ends.items s.codes.items };

    ghost invariant = { λ s. AreStored s.ends.items s.codes.items };
}

/// Puts the numbers of the literals behind the others.
fn push_codes(codes: &mut Vec<u32>, lits: &[Lit]) -> Result<(), AllocError>
    requires { All (λ (l : _). l.var < 2 ^ 31) lits.now }
    ensures ok { OnOk result (codes.new.items ≡ codes.old.items ++ map code_of lits.now) }
    ensures err { OnErr result (GrowsUpTo codes.old.items codes.new.items (length lits.now)) }
{
    for lit in lits {
        codes.push(code_of(*lit))?;
    }
    Ok(())
}

/// Where the clause with this place begins.
fn start_of(ends: &[u32], place: usize) -> usize
    requires { place ≤ length ends.now }
    ensures { result ≡ start_at 0 ends.now place }
{
    if place == 0 {
        return 0;
    }
    ends[place - 1] as usize
}

/// The place behind the last clause.
fn end_of(ends: &[u32]) -> usize
    ensures { result ≡ last_end 0 ends.now }
{
    start_of(ends, ends.len())
}

impl Store {
    /// No clauses.
    pub fn new(alloc: Global) -> Store
        ensures { result ≡ [] }
    {
        Store {
            codes: Vec::new(alloc),
            ends: Vec::new(alloc),
        }
    }

    /// How many clauses there are.
    pub fn len(&self) -> usize
        ensures { result ≡ length self.now }
    {
        self.ends.len()
    }

    /// The numbers of a clause's literals.
    pub fn codes(&self, place: usize) -> &[u32]
        requires { place < length self.now }
        ensures lits { map literal_of result.now ≡ slice_index_or self.now place [] }
        ensures clause { IsClause (map literal_of result.now) }
    {
        let start = start_of(self.ends.as_slice(), place);
        let end = self.ends[place] as usize;
        let part = &self.codes.as_slice()[start..end];
        part
    }

    /// A clause by itself.
    pub fn clause(&self, alloc: Global, place: usize) -> Result<Clause, AllocError>
        requires { place < length self.now }
        ensures { IfOk result (λ c. c ≡ slice_index_or self.now place []) }
    {
        let codes = self.codes(place);
        let mut lits = Vec::new(alloc);
        for code in codes {
            lits.push(literal_of(*code))?;
        }
        Clause::new(alloc, lits.as_slice())
    }

    /// Adds a clause at the end.
    pub fn push(&mut self, lits: &[Lit]) -> Result<(), AllocError>
        requires fits { All (λ (l : _). l.var < 2 ^ 31) lits.now }
        requires clause { IsClause lits.now }
        ensures ok { OnOk result (self.new ≡ self.old ++ lits.now ∷ []) }
        ensures err { OnErr result (self.new ≡ self.old) }
    {
        let start = end_of(self.ends.as_slice());
        self.codes.truncate(start);
        if MOST_LITERALS - start < lits.len() {
            return Err(AllocError);
        }
        push_codes(&mut self.codes, lits)?;
        self.ends.push(self.codes.len() as u32)?;
        Ok(())
    }

    /// Takes the last clause away.
    pub fn pop(&mut self)
        requires { 0 < length self.old }
        ensures { self.new ≡ take (length self.old - 1) self.old }
    {
        let count = self.ends.len();
        self.ends.truncate(count - 1);
    }
}
