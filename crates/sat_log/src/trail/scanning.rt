ghost use Rattle.std.specs.Prelude.{◌≡◌, ◌+◌, ◌++◌, ◌∷◌, ◌<◌, ◌≤◌, ◌↔◌, ℕ, true, false, length, slice_index_or, All, Contains, IfNone, IfOk, IfSome, IsTrue, []};
ghost use Rattle.std.specs.Bool.{OnFalse, OnTrue};
ghost use Rattle.ut_logic.specs.Clauses.{IsOrdered, IsWithin, literal, negated};
ghost use Rattle.ut_logic.specs.declared.literals.Lit.{Lit};
ghost use Rattle.log_check.specs.Derivations.{IsNumbered, IsRight};
ghost use Rattle.sat_log.specs.declared.marks.Mark.{Mark};
ghost use Rattle.sat_log.specs.Inner.{EndsOrCuts};
ghost use Rattle.sat_log.specs.Moves.{IsFalse, IsFalseClause, IsForcing, IsSet, IsSetVar, known};
ghost use Rattle.sat_log.specs.Trails.{IsCut};

use crate::analysis::resolved_back;
use crate::trail::Trail;
use crate::values::{Value, first_unset_or_end, last_decided};
use log_check::{Chain, Derivation, DerivationLine};
use std::alloc::{AllocError, Global};
use ut_logic::Sequence;

impl Trail {
    /// Whether the variable is set to true.
    pub(crate) fn is_true(&self, var: u64) -> bool
        requires { (0 < var) × (var ≤ self.now.vars) }
        ensures { IsTrue result ↔ IsSet self.now.state.marks (literal var true) }
    {
        match self.values[(var - 1) as usize] {
            Value::True => true,
            _ => false,
        }
    }

    /// Whether each variable is set.
    pub(crate) fn is_full(&mut self) -> bool
        ensures vars { self.new.vars ≡ self.old.vars }
        ensures clauses { self.new.clauses ≡ self.old.clauses }
        ensures state { self.new.state ≡ self.old.state }
        ensures full { OnTrue result ((x : ℕ) → 0 < x → x ≤ self.old.vars → IsSetVar self.old.state.marks x) }
        ensures some { OnFalse result ((x : ℕ) × (0 < x) × (x ≤ self.old.vars) × (¬ IsSetVar self.old.state.marks x)) }
    {
        let place = first_unset_or_end(self.values.as_slice(), self.low);
        self.low = place;
        place == self.values.len()
    }

    /// The number of a false known clause.
    pub(crate) fn first_false(&self) -> Option<u64>
        ensures found { IfSome result (λ number. (c : _) × IsNumbered (known self.now.clauses self.now.state) number c
            × IsFalseClause self.now.state.marks c) }
        ensures none { IfNone result ((c : _) → Contains (known self.now.clauses self.now.state) c →
            ¬ IsFalseClause self.now.state.marks c) }
    {
        if self.watched.conflict == 0 {
            return None;
        }
        Some(self.watched.conflict)
    }

    /// The number of a known clause with one unset literal and else false ones.
    pub(crate) fn first_forcing(&mut self) -> Option<u64>
        requires { (c : _) → Contains (known self.old.clauses self.old.state) c → ¬ IsFalseClause self.old.state.marks c }
        ensures vars { self.new.vars ≡ self.old.vars }
        ensures clauses { self.new.clauses ≡ self.old.clauses }
        ensures state { self.new.state ≡ self.old.state }
        ensures found { IfSome result (λ number. (c : _) × IsNumbered (known self.old.clauses self.old.state) number c
            × IsForcing self.old.state.marks c) }
        ensures none { IfNone result ((c : _) → Contains (known self.old.clauses self.old.state) c →
            ¬ IsForcing self.old.state.marks c) }
    {
        match self.watched.first_forcing(self.values.as_slice()) {
            Some(place) => Some(u64::from(place) + 1),
            None => None,
        }
    }

    /// The line that comes of resolving the forced literals away from a false known clause.
    pub(crate) fn explain(&self, alloc: Global, conflict: u64) -> Result<DerivationLine, AllocError>
        requires { (c : _) × IsNumbered (known self.now.clauses self.now.state) conflict c × IsFalseClause self.now.state.marks c }
        ensures right { IfOk result (λ line. IsRight self.now.clauses self.now.state.lines line) }
        ensures ends { IfOk result (λ line. EndsOrCuts self.now.state.marks line.result) }
    {
        let decided = last_decided(self.latest.as_slice(), self.set);
        let line = resolved_back(
            alloc,
            &self.watched.store,
            &self.marks.as_slice()[..self.set],
            &self.reasons.as_slice()[..self.set],
            self.at.as_slice(),
            decided,
            conflict,
        )?;
        Ok(line)
    }

    /// The derived lines, and this one behind them.
    pub(crate) fn derivation(
        &self,
        alloc: Global,
        last: DerivationLine,
    ) -> Result<Derivation, AllocError>
        ensures { IfOk result (λ d. d.lines ≡ self.now.state.lines ++ last ∷ []) }
    {
        let mut lines = copied_lines(alloc, self.lines.as_slice())?;
        lines.push(last)?;
        Ok(Derivation {
            lines: Sequence::from_vec(lines),
        })
    }
}

fn copied_lines(alloc: Global, lines: &[DerivationLine]) -> Result<Vec<DerivationLine>, AllocError>
    ensures { IfOk result (λ copies. copies.items ≡ lines.now) }
{
    let mut copies = Vec::new(alloc);
    for line in lines {
        copies.push(copied_line(alloc, line)?)?;
    }
    Ok(copies)
}

fn copied_line(alloc: Global, line: &DerivationLine) -> Result<DerivationLine, AllocError>
    ensures { IfOk result (λ copy. copy ≡ line.now) }
{
    let result = line.result.copy(alloc)?;
    let pairs = Vec::from_slice(alloc, line.chain.pairs.as_slice())?;
    Ok(DerivationLine {
        result,
        chain: Chain {
            first: line.chain.first,
            pairs: Sequence::from_vec(pairs),
        },
    })
}
