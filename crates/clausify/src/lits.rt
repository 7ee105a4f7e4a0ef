ghost use Rattle.std.specs.Prelude.{◌≡◌, ◌∷◌, [], map, IfOk};
ghost use Rattle.ut_logic.specs.Clauses as words;
ghost use Rattle.clausify.specs.ClauseForm as spec;

use smallvec::SmallVec;
use std::alloc::{AllocError, Global};
use std::marker::Model;
use ut_logic::Lit;

/// A clause as it is written: its literals in any order, which may repeat.
#[derive(Drop)]
pub struct Lits {
    lits: SmallVec<Lit, 4>,
}

impl Model for Lits {
    ghost use Rattle.std.specs.Prelude.{List};
    ghost use Rattle.ut_logic.specs.declared.literals.Lit.{Lit};

    ghost Value = { List Lit };

    ghost view = { λ c. c.lits.items };
}

impl Lits {
    /// The clause of these literals. The only error is want of memory.
    pub fn from_slice(alloc: Global, lits: &[Lit]) -> Result<Lits, AllocError>
        ensures { IfOk result (λ c. c ≡ lits.now) }
    {
        let lits = SmallVec::from_slice(alloc, lits)?;
        Ok(Lits { lits })
    }

    /// A clause of a literal and the negations of others.
    pub fn negated_after(alloc: Global, first: Lit, lits: &[Lit]) -> Result<Lits, AllocError>
        ensures { IfOk result (λ c. c ≡ first ∷ map words.negated lits.now) }
    {
        let mut clause = SmallVec::from_slice(alloc, &[first])?;
        for lit in lits {
            clause.push(negated(*lit))?;
        }
        Ok(Lits { lits: clause })
    }

    /// A clause of a literal and others.
    pub fn after(alloc: Global, first: Lit, lits: &[Lit]) -> Result<Lits, AllocError>
        ensures { IfOk result (λ c. c ≡ first ∷ lits.now) }
    {
        let mut clause = SmallVec::from_slice(alloc, &[first])?;
        for lit in lits {
            clause.push(*lit)?;
        }
        Ok(Lits { lits: clause })
    }

    /// The literals in order.
    pub fn as_slice(&self) -> &[Lit]
        ensures { result.now ≡ self.now }
    {
        self.lits.as_slice()
    }
}

/// The variable.
pub fn positive(var: u64) -> Lit
    ensures { result ≡ spec.pos var }
{
    Lit {
        var,
        positive: true,
    }
}

/// The negation of the variable.
pub fn negative(var: u64) -> Lit
    ensures { result ≡ spec.neg var }
{
    Lit {
        var,
        positive: false,
    }
}

/// The literal with the other sign.
pub fn negated(lit: Lit) -> Lit
    ensures { result ≡ words.negated lit }
{
    Lit {
        var: lit.var,
        positive: !lit.positive,
    }
}
