ghost use Rattle.std.specs.Prelude.{◌≡◌, ◌↔◌, ◌++◌, ◌∷◌, [], IfNone, IfOk, IfSome, IsTrue, OnErr};
ghost use Rattle.std.specs.Bool.{OnFalse, OnTrue};
ghost use Rattle.log_check.specs.Derivations.{ChainGives, IsNumbered};
ghost use Rattle.log_check.specs.Lent.{lent};

use crate::derivations::DerivationLine;
use crate::running::RunningClause;
use std::alloc::{AllocError, Global};
use std::marker::Model;
use ut_logic::{Clause, Cnf};

/// The clauses that a line may cite: those of a clause form, then the results of the lines before it.
#[derive(Drop)]
struct Known<'a> {
    clauses: &'a [Clause],
    results: &'a [&'a Clause],
}

impl<'a> Model for Known<'a> {
    ghost use Rattle.std.specs.Prelude.{◌++◌, List};
    ghost use Rattle.ut_logic.specs.declared.literals.Lit.{Lit};

    ghost Value = { List (List Lit) };

    ghost use Rattle.log_check.specs.Lent.{lent};

    ghost view = { λ k. k.clauses.now ++ lent k.results.now };
}

impl<'a> Known<'a> {
    /// The clauses, then the results.
    fn of(clauses: &'a [Clause], results: &'a [&'a Clause]) -> Known<'a>
        ensures { result ≡ clauses.now ++ lent results.now }
    {
        Known { clauses, results }
    }

    /// The clause with this number.
    fn clause(&self, number: u64) -> Option<&Clause>
        ensures found { IfSome result (λ c. IsNumbered self.now number c.now) }
        ensures none { IfNone result ((c : _) → ¬ IsNumbered self.now number c) }
    {
        if number == 0 {
            return None;
        }
        let place = number - 1;
        let count = self.clauses.len() as u64;
        if place < count {
            return Some(&self.clauses[place as usize]);
        }
        if place - count < self.results.len() as u64 {
            return Some(self.results[(place - count) as usize]);
        }
        None
    }

    /// Whether the line's result is what its chain gives.
    fn gives(&self, line: &DerivationLine, running: &mut RunningClause) -> Result<bool, AllocError>
        ensures { IfOk result (λ given. IsTrue given ↔ ChainGives self.now line.now.chain line.now.result) }
    {
        let Some(first) = self.clause(line.chain.first) else {
            return Ok(false);
        };
        running.start(first)?;
        for pair in line.chain.pairs.as_slice() {
            let Some(clause) = self.clause(pair.clause) else {
                return Ok(false);
            };
            if !running.resolve(clause, pair.pivot)? {
                return Ok(false);
            }
        }
        Ok(running.is(&line.result))
    }
}

/// The results of the lines that were taken so far, in order.
#[derive(Drop)]
pub struct Results<'a> {
    clauses: Vec<&'a Clause>,
    running: RunningClause,
}

impl<'a> Model for Results<'a> {
    ghost use Rattle.std.specs.Prelude.{List};
    ghost use Rattle.ut_logic.specs.declared.literals.Lit.{Lit};

    ghost Value = { List (List Lit) };

    ghost use Rattle.log_check.specs.Lent.{lent};

    ghost view = { λ r. lent r.clauses.items };
}

impl<'a> Results<'a> {
    /// No result yet.
    pub fn new(alloc: Global) -> Results<'a>
        ensures { result ≡ [] }
    {
        Results {
            clauses: Vec::new(alloc),
            running: RunningClause::new(alloc),
        }
    }

    /// Adds the line's result if its chain gives it from these clauses and the results so far; whether it does.
    pub fn take(&mut self, clauses: &[Clause], line: &'a DerivationLine) -> Result<bool, AllocError>
        ensures given { IfOk result (λ given.
            IsTrue given ↔ ChainGives (clauses.now ++ self.old) line.now.chain line.now.result) }
        ensures added { IfOk result (λ given. OnTrue given (self.new ≡ self.old ++ line.now.result ∷ [])) }
        ensures same { IfOk result (λ given. OnFalse given (self.new ≡ self.old)) }
        ensures err { OnErr result (self.new ≡ self.old) }
    {
        let known = Known::of(clauses, self.clauses.as_slice());
        if !known.gives(line, &mut self.running)? {
            return Ok(false);
        }
        self.clauses.push(&line.result)?;
        Ok(true)
    }
}

/// The clauses of a clause form, then the results of the lines that were taken: those that the next line may cite.
///
/// Clauses count from 1. To follow a derivation line by line, take its lines one after another. Rule: resolution in
/// propositional logic; numbers and chains are this project's own.
#[derive(Drop)]
pub struct KnownClauses<'a> {
    form: Cnf,
    results: Results<'a>,
}

impl<'a> Model for KnownClauses<'a> {
    ghost use Rattle.std.specs.Prelude.{◌++◌, List};
    ghost use Rattle.ut_logic.specs.declared.literals.Lit.{Lit};

    ghost Value = { List (List Lit) };

    ghost view = { λ k. k.form.clauses ++ k.results };
}

impl<'a> KnownClauses<'a> {
    /// The clauses of the form. It takes no memory.
    pub fn new(alloc: Global, form: Cnf) -> KnownClauses<'a>
        ensures { result ≡ form.clauses }
    {
        KnownClauses {
            form,
            results: Results::new(alloc),
        }
    }

    /// Adds the line's result, without a copy, if its chain gives it from these clauses; whether it does.
    ///
    /// The only error is want of memory, after which the clauses are as before.
    pub fn take(&mut self, line: &'a DerivationLine) -> Result<bool, AllocError>
        ensures given { IfOk result (λ given. IsTrue given ↔ ChainGives self.old line.now.chain line.now.result) }
        ensures added { IfOk result (λ given. OnTrue given (self.new ≡ self.old ++ line.now.result ∷ [])) }
        ensures same { IfOk result (λ given. OnFalse given (self.new ≡ self.old)) }
        ensures err { OnErr result (self.new ≡ self.old) }
    {
        self.results.take(self.form.clauses.as_slice(), line)
    }
}
