ghost use Rattle.std.specs.Prelude.{◌≡◌, ◌++◌, ◌∷◌, ◌+◌, ◌-◌, ◌^◌, ◌<◌, ◌≤◌, ℕ, [], length, take, All, IfOk, OnErr, OnOk};
ghost use Rattle.ut_logic.specs.Clauses.{AreWithin};
ghost use Rattle.log_check.specs.Derivations.{IsNumbered, IsRight};
ghost use Rattle.sat_log.specs.Moves.{Decides, IsForcing, IsQuiet, IsSetVar, Jumps, known};
ghost use Rattle.sat_log.specs.Runs.{IsReached, start};
ghost use Rattle.sat_log.specs.Codes.{literal_of};
ghost use Rattle.sat_log.specs.Trails.{IsCut, IsFirstPlace, Sets};
ghost use Rattle.sat_log.specs.Watches.{MayWatch};

mod scanning;
#[cfg(test)]
mod tests;

use crate::codes::{code_of, literal_of, opposite};
use crate::cutting::{cut_behind, latest_two};
use crate::marks::{Mark, NO_MARK};
use crate::store::Store;
use crate::values::{Value, clear, first_unset, put, stand, unset_code, unset_values};
use crate::visiting::{Watched, watched_clauses};
use log_check::DerivationLine;
use std::alloc::{AllocError, Global};
use std::marker::Model;
use ut_logic::{Cnf, Lit};

/// How many variables have numbers for their literals.
const MOST_VARIABLES: u64 = 2_147_483_647;

/// A run's clause form, derived lines and set literals.
#[derive(Drop)]
pub struct Trail {
    vars: u64,

    /// How many of the known clauses are those of the clause form; the others are the results of the lines.
    form: usize,
    watched: Watched,
    lines: Vec<DerivationLine>,
    marks: Vec<Mark>,
    reasons: Vec<u64>,

    /// For each place of the trail, the latest decided place up to it, counted from 1.
    latest: Vec<u32>,
    set: usize,
    low: usize,
    values: Vec<Value>,

    /// The place of each variable that is set.
    at: Vec<u32>,
    steps: u64,
}

impl Model for Trail {
    ghost use Rattle.sat_log.specs.Trails.{TrailView};

    ghost Value = { TrailView };

    ghost use Rattle.sat_log.specs.TrailInside.{view_of, IsTrail};

    ghost view = { view_of };

    ghost invariant = { IsTrail };
}

/// Adds a line, and its result to the known clauses.
fn add_line(
    store: &mut Store,
    lines: &mut Vec<DerivationLine>,
    line: DerivationLine,
) -> Result<(), AllocError>
    requires { All (λ (l : _). l.var < 2 ^ 31) line.result }
    ensures ok { OnOk result ((store.new ≡ store.old ++ line.result ∷ []) × (lines.new.items ≡ lines.old.items ++ line ∷ [])) }
    ensures err { OnErr result ((store.new ≡ store.old) × (lines.new.items ≡ lines.old.items)) }
{
    store.push(line.result.lits())?;
    match lines.push(line) {
        Ok(()) => Ok(()),
        Err(_) => {
            store.pop();
            Err(AllocError)
        }
    }
}

impl Trail {
    /// The trail of a clause form, with nothing set.
    pub fn new(alloc: Global, cnf: &Cnf) -> Result<Trail, AllocError>
        ensures vars { IfOk result (λ t. t.vars ≡ cnf.now.vars) }
        ensures clauses { IfOk result (λ t. t.clauses ≡ cnf.now.clauses) }
        ensures state { IfOk result (λ t. t.state ≡ start) }
    {
        if cnf.vars >= MOST_VARIABLES {
            return Err(AllocError);
        }
        let n = cnf.vars as usize;
        let marks = vec![in alloc; NO_MARK; n]?;
        let reasons = vec![in alloc; 0u64; n]?;
        let latest = vec![in alloc; 0u32; n]?;
        let at = vec![in alloc; 0u32; n]?;
        let values = unset_values(alloc, n)?;
        let watched = watched_clauses(alloc, n, cnf.clauses.as_slice())?;
        Ok(Trail {
            vars: cnf.vars,
            form: cnf.clauses.len(),
            watched,
            lines: Vec::new(alloc),
            marks,
            reasons,
            latest,
            set: 0,
            low: 0,
            values,
            at,
            steps: 0,
        })
    }

    /// The number of calls of `decide` and `propagate`.
    pub fn steps(&self) -> u64
        ensures count { result ≡ self.now.state.steps }
        ensures within { AreWithin self.now.vars self.now.clauses }
        ensures reached { IsReached self.now.vars self.now.clauses self.now.state }
    {
        self.steps
    }

    /// Sets the first unset variable to false.
    pub fn decide(&mut self)
        requires quiet { IsQuiet (known self.old.clauses self.old.state) self.old.state.marks }
        requires some { (x : ℕ) × (0 < x) × (x ≤ self.old.vars) × (¬ IsSetVar self.old.state.marks x) }
        requires steps { self.old.state.steps < 2 ^ 64 - 1 }
        ensures vars { self.new.vars ≡ self.old.vars }
        ensures clauses { self.new.clauses ≡ self.old.clauses }
        ensures state { Decides self.old.vars self.old.clauses self.old.state self.new.state }
    {
        let place = first_unset(self.values.as_slice(), self.low);
        let lit = Lit {
            var: place as u64 + 1,
            positive: false,
        };
        put(
            &mut self.marks,
            &mut self.reasons,
            self.set,
            &mut self.values,
            Mark { lit, decided: true },
            0,
        );
        stand(&mut self.at, &mut self.latest, self.set, place, true);
        self.watched
            .visit(self.values.as_slice(), code_of(opposite(lit)));
        self.set += 1;
        self.low = place + 1;
        self.steps += 1;
    }

    /// Sets the one unset literal of a known clause whose other literals are false.
    pub fn propagate(&mut self, clause: u64)
        requires forces { (c : _) × IsNumbered (known self.old.clauses self.old.state) clause c × IsForcing self.old.state.marks c }
        requires steps { self.old.state.steps < 2 ^ 64 - 1 }
        ensures vars { self.new.vars ≡ self.old.vars }
        ensures clauses { self.new.clauses ≡ self.old.clauses }
        ensures sets { Sets self.old.clauses clause self.old.state self.new.state }
    {
        let code = unset_code(
            self.watched.store.codes((clause - 1) as usize),
            self.values.as_slice(),
        );
        let lit = literal_of(code);
        put(
            &mut self.marks,
            &mut self.reasons,
            self.set,
            &mut self.values,
            Mark {
                lit,
                decided: false,
            },
            clause,
        );
        stand(
            &mut self.at,
            &mut self.latest,
            self.set,
            (lit.var - 1) as usize,
            false,
        );
        self.watched
            .visit(self.values.as_slice(), code_of(opposite(lit)));
        self.set += 1;
        self.steps += 1;
    }

    /// Adds a derived line, and cuts the trail before the first decided literal where the line forces one.
    pub fn backjump(&mut self, derived: DerivationLine) -> Result<(), AllocError>
        requires right { IsRight self.old.clauses self.old.state.lines derived }
        requires some { (k : ℕ) × IsCut self.old.state.marks derived.result k }
        ensures vars { self.new.vars ≡ self.old.vars }
        ensures clauses { self.new.clauses ≡ self.old.clauses }
        ensures ok { OnOk result (Jumps self.old.clauses self.old.state self.new.state) }

        // It is the first cut that is allowed.
        ensures first { OnOk result (IsFirstPlace self.old.state.marks derived.result (length self.new.state.marks)) }
        ensures err { OnErr result (self.new.state ≡ self.old.state) }
    {
        let lits = derived.result.lits();
        let ends = latest_two(self.at.as_slice(), self.values.as_slice(), self.set, lits);
        let place = cut_behind(
            &self.marks.as_slice()[..self.set],
            self.latest.as_slice(),
            ends.bound,
        );
        self.cut_at(
            place,
            code_of(lits[ends.first]),
            code_of(lits[ends.second]),
            derived,
        )?;
        Ok(())
    }

    /// Adds a derived line with its two watches, and cuts the trail at a place.
    fn cut_at(
        &mut self,
        place: usize,
        first: u32,
        second: u32,
        derived: DerivationLine,
    ) -> Result<(), AllocError>
        requires place { IsFirstPlace self.old.state.marks derived.result place }
        requires right { IsRight self.old.clauses self.old.state.lines derived }
        requires watches { MayWatch (take place self.old.state.marks) derived.result (literal_of first) (literal_of second) }
        ensures vars { self.new.vars ≡ self.old.vars }
        ensures clauses { self.new.clauses ≡ self.old.clauses }
        ensures ok { OnOk result (Jumps self.old.clauses self.old.state self.new.state) }
        ensures place { OnOk result (length self.new.state.marks ≡ place) }
        ensures err { OnErr result (self.new.state ≡ self.old.state) }
    {
        self.watched.grow()?;
        add_line(&mut self.watched.store, &mut self.lines, derived)?;
        let marks = &self.marks.as_slice()[..self.set];
        self.low = (marks[place].lit.var - 1) as usize;
        clear(&mut self.values, marks, place);
        self.set = place;
        self.watched.learn(first, second);
        Ok(())
    }
}
