ghost use Rattle.std.specs.Prelude.{◌≡◌, ◌+◌, ◌<◌, ◌≤◌, ◌^◌, ℕ, length, IfOk, Ok, OnErr, OnOk};
ghost use Rattle.ut_logic.specs.declared.item.Item as declared;
ghost use Rattle.log_check.specs.Derivations.{IsNumbered};
ghost use Rattle.sat_log.specs.Answers.{IsAnswer};
ghost use Rattle.sat_log.specs.Choosing.{AreChosen, chosen_with};
ghost use Rattle.sat_log.specs.Moves.{IsFalseClause, known};
ghost use Rattle.sat_log.specs.Runs.{IsReached, start};
ghost use Rattle.sat_log.specs.Search.{IsTurn};

use crate::trail::Trail;
use log_check::{Derivation, DerivationLine};
use std::alloc::{AllocError, Global};
use ut_logic::{Assign, Cnf, Item};

/// What the search came to.
#[derive(Debug, Drop)]
pub enum Answer {
    /// The least model, on the items.
    Found(Assign),

    /// There is no model, and this derivation shows it.
    Refuted(Derivation),

    /// The budget is used up.
    Spent { steps: u64 },
}

/// What one turn of the search came to.
#[derive(Drop)]
enum Turn {
    Moved,
    Found,
    Refuted(DerivationLine),
    Spent,
}

/// Explains a false known clause, and jumps back or ends.
fn turn_back(
    alloc: Global,
    trail: &mut Trail,
    conflict: u64,
    budget: u64,
) -> Result<Turn, AllocError>
    requires steps { trail.old.state.steps ≤ budget }
    requires conflict { (c : _) × IsNumbered (known trail.old.clauses trail.old.state) conflict c
        × IsFalseClause trail.old.state.marks c }
    ensures vars { trail.new.vars ≡ trail.old.vars }
    ensures clauses { trail.new.clauses ≡ trail.old.clauses }
    ensures turn { IfOk result (IsTurn trail.old.vars trail.old.clauses budget trail.old.state trail.new.state) }
    ensures err { OnErr result (trail.new.state ≡ trail.old.state) }
{
    let line = trail.explain(alloc, conflict)?;
    if line.result.lits().is_empty() {
        return Ok(Turn::Refuted(line));
    }
    trail.backjump(line)?;
    Ok(Turn::Moved)
}

/// Makes one move, or says at which end the trail is, or that the budget is used up.
fn take_turn(alloc: Global, trail: &mut Trail, budget: u64) -> Result<Turn, AllocError>
    requires { trail.old.state.steps ≤ budget }
    ensures vars { trail.new.vars ≡ trail.old.vars }
    ensures clauses { trail.new.clauses ≡ trail.old.clauses }
    ensures turn { IfOk result (IsTurn trail.old.vars trail.old.clauses budget trail.old.state trail.new.state) }
    ensures err { OnErr result (trail.new.state ≡ trail.old.state) }
{
    if let Some(conflict) = trail.first_false() {
        return turn_back(alloc, trail, conflict, budget);
    }
    if trail.is_full() {
        return Ok(Turn::Found);
    }
    if trail.steps() == budget {
        return Ok(Turn::Spent);
    }
    match trail.first_forcing() {
        Some(number) => {
            trail.propagate(number);
            Ok(Turn::Moved)
        }
        None => {
            trail.decide();
            Ok(Turn::Moved)
        }
    }
}

fn choose(chosen: &mut Vec<Item>, item: Item, wanted: bool) -> Result<(), AllocError>
    ensures { OnOk result (chosen.new.items ≡ chosen_with chosen.old.items item wanted) }
{
    if wanted {
        chosen.push(item)?;
    }
    Ok(())
}

/// The items that the trail makes true.
fn true_items(alloc: Global, cnf: &Cnf, trail: &Trail) -> Result<Vec<Item>, AllocError>
    requires { trail.now.vars ≡ cnf.now.vars }
    ensures { IfOk result (λ chosen. AreChosen cnf.now.items trail.now.state.marks (length cnf.now.items) chosen.items) }
{
    let mut chosen = Vec::new(alloc);
    let items = cnf.items.as_slice();
    for k in 0..items.len() {
        choose(&mut chosen, items[k], trail.is_true(k as u64 + 1))?;
    }
    Ok(chosen)
}

/// The least model of the clause form, a derivation that refutes it, or that the budget is used up.
///
/// The budget is in steps, which are decisions and propagations. The only error is want of memory; then
/// the trail holds the moves made so far. This project's rule.
pub fn solve(alloc: Global, cnf: &Cnf, trail: &mut Trail, budget: u64) -> Result<Answer, AllocError>
    // The trail is as `Trail::new` makes it for this clause form.
    requires vars { trail.old.vars ≡ cnf.now.vars }
    requires clauses { trail.old.clauses ≡ cnf.now.clauses }
    requires state { trail.old.state ≡ start }

    ensures vars { trail.new.vars ≡ cnf.now.vars }
    ensures clauses { trail.new.clauses ≡ cnf.now.clauses }
    ensures run { IsReached cnf.now.vars cnf.now.clauses trail.new.state }
    ensures steps { trail.new.state.steps ≤ budget }
    ensures answer { IfOk result (IsAnswer cnf.now.vars cnf.now.items cnf.now.clauses budget trail.new.state) }

    // A budget of 2 ^ (n + 1) is never used up.
    ensures bounded { (steps : ℕ) → result ≡ Ok (Answer.Spent steps) → budget < 2 ^ (cnf.now.vars + 1) }
{
    'search: loop {
        match take_turn(alloc, trail, budget)? {
            Turn::Moved => {}
            Turn::Found => {
                let chosen = true_items(alloc, cnf, trail)?;
                return Ok(Answer::Found(Assign::new(chosen)));
            }
            Turn::Refuted(line) => {
                let derivation = trail.derivation(alloc, line)?;
                return Ok(Answer::Refuted(derivation));
            }
            Turn::Spent => return Ok(Answer::Spent { steps: budget }),
        }
    }
}
