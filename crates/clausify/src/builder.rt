ghost use Rattle.std.specs.Prelude.{◌≡◌, ◌+◌, ◌∷◌, [], ◌++◌, IfOk, OnOk};
ghost use Rattle.clausify.specs.ClauseForm as spec;

use crate::lits::{Lits, negated, negative, positive};
use std::alloc::{AllocError, Global};
use std::marker::Model;
use ut_logic::Lit;

/// A clause form as it grows, or what is written of it since its clauses were last left out. After an error it
/// holds some further clauses.
#[derive(Drop)]
pub struct Builder {
    vars: u64,
    clauses: Vec<Lits>,
}

impl Model for Builder {
    ghost use Rattle.clausify.specs.Form.{Form};

    ghost Value = { Form };

    ghost view = { λ b. record { vars = b.vars; clauses = b.clauses.items } };
}

impl Builder {
    /// No clauses over these variables.
    pub fn new(alloc: Global, vars: u64) -> Builder
        ensures { result ≡ record { vars = vars; clauses = [] } }
    {
        Builder {
            vars,
            clauses: Vec::new(alloc),
        }
    }

    /// The number of variables.
    pub fn vars(&self) -> u64
        ensures { result ≡ self.now.vars }
    {
        self.vars
    }

    /// The clauses as they were written.
    pub fn clauses(&self) -> &[Lits]
        ensures { result.now ≡ self.now.clauses }
    {
        self.clauses.as_slice()
    }

    /// Leaves out all clauses so far, and keeps their room.
    pub fn clear(&mut self)
        ensures { self.new ≡ record { vars = self.old.vars; clauses = [] } }
    {
        self.clauses.clear();
    }

    /// Adds a clause.
    pub fn add(&mut self, alloc: Global, lits: &[Lit]) -> Result<(), AllocError>
        ensures { OnOk result (self.new ≡ spec.with_clauses self.old (lits.now ∷ [])) }
    {
        self.clauses.push(Lits::from_slice(alloc, lits)?)?;
        Ok(())
    }

    /// Adds what says that the variable is all of the literals.
    pub fn add_all(&mut self, alloc: Global, var: u64, lits: &[Lit]) -> Result<(), AllocError>
        ensures { OnOk result (self.new ≡ spec.all_after var (lits.now, self.old)) }
    {
        push_all(alloc, &mut self.clauses, var, lits)
    }

    /// Adds what says that the variable is any of the literals.
    pub fn add_any(&mut self, alloc: Global, var: u64, lits: &[Lit]) -> Result<(), AllocError>
        ensures { OnOk result (self.new ≡ spec.any_after var (lits.now, self.old)) }
    {
        push_any(alloc, &mut self.clauses, var, lits)
    }

    /// Adds what says that the variable is the literal.
    pub fn add_same(&mut self, alloc: Global, var: u64, lit: Lit) -> Result<(), AllocError>
        ensures { OnOk result (self.new ≡ spec.same_after var (lit, self.old)) }
    {
        push_same(alloc, &mut self.clauses, var, lit)
    }

    /// A new variable that is all of the literals.
    pub fn define_all(&mut self, alloc: Global, lits: &[Lit]) -> Result<Lit, AllocError>
        ensures lit { IfOk result (λ l. l ≡ (spec.define_all (lits.now, self.old)).0) }
        ensures form { OnOk result (self.new ≡ (spec.define_all (lits.now, self.old)).1) }
    {
        let var = next_variable(self.vars)?;
        push_all(alloc, &mut self.clauses, var, lits)?;
        self.vars = var;
        Ok(positive(var))
    }

    /// A new variable that is any of the literals.
    pub fn define_any(&mut self, alloc: Global, lits: &[Lit]) -> Result<Lit, AllocError>
        ensures lit { IfOk result (λ l. l ≡ (spec.define_any (lits.now, self.old)).0) }
        ensures form { OnOk result (self.new ≡ (spec.define_any (lits.now, self.old)).1) }
    {
        let var = next_variable(self.vars)?;
        push_any(alloc, &mut self.clauses, var, lits)?;
        self.vars = var;
        Ok(positive(var))
    }
}

/// The variable after these many. No memory holds the clauses of more than a `u64` counts.
fn next_variable(vars: u64) -> Result<u64, AllocError>
    ensures { IfOk result (λ var. var ≡ vars + 1) }
{
    vars.checked_add(1).ok_or(AllocError)
}

/// Adds what says that the variable is all of the literals.
fn push_all(
    alloc: Global,
    clauses: &mut Vec<Lits>,
    var: u64,
    lits: &[Lit],
) -> Result<(), AllocError>
    ensures { OnOk result (clauses.new.items ≡ clauses.old.items ++ spec.all_clauses var lits.now) }
{
    for lit in lits {
        clauses.push(Lits::from_slice(alloc, &[negative(var), *lit])?)?;
    }
    clauses.push(Lits::negated_after(alloc, positive(var), lits)?)?;
    Ok(())
}

/// Adds what says that the variable is any of the literals.
fn push_any(
    alloc: Global,
    clauses: &mut Vec<Lits>,
    var: u64,
    lits: &[Lit],
) -> Result<(), AllocError>
    ensures { OnOk result (clauses.new.items ≡ clauses.old.items ++ spec.any_clauses var lits.now) }
{
    for lit in lits {
        clauses.push(Lits::from_slice(alloc, &[positive(var), negated(*lit)])?)?;
    }
    clauses.push(Lits::after(alloc, negative(var), lits)?)?;
    Ok(())
}

/// Adds what says that the variable is the literal.
fn push_same(alloc: Global, clauses: &mut Vec<Lits>, var: u64, lit: Lit) -> Result<(), AllocError>
    ensures { OnOk result (clauses.new.items ≡ clauses.old.items ++ spec.same_clauses var lit) }
{
    clauses.push(Lits::from_slice(alloc, &[negative(var), lit])?)?;
    clauses.push(Lits::from_slice(alloc, &[positive(var), negated(lit)])?)?;
    Ok(())
}
