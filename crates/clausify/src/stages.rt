ghost use Rattle.std.specs.Prelude.{◌≡◌, map, IfOk, OnOk};
ghost use Rattle.ut_logic.specs.Truth.{mentioned, together};
ghost use Rattle.clausify.specs.ClauseForm.{HaveVariables, var_of, hold_each, defined_each};
ghost use Rattle.clausify.specs.Order as order;
ghost use Rattle.clausify.specs.Form as spec;
ghost use Rattle.clausify.specs.Draft.{IsDraft, IsSettled};

use crate::builder::Builder;
use crate::chosen::nodes_of;
use crate::draft::Draft;
use crate::hold::{define_each, hold_each};
use crate::stage::Stage;
use crate::variables::Variables;
use indexmap::IndexSet;
use model_slice::SymbolRoom;
use std::alloc::{AllocError, Global};
use ut_logic::{Fact, Formula, Item, Node};

/// For how many clauses there is room at first, for each item. More take more room as they come.
const CLAUSES_PER_ITEM: usize = 8;

/// The clauses of formulas that are held and of facts, all in order, over these items.
pub fn drafted(
    alloc: Global,
    items: &IndexSet<Item>,
    room: &SymbolRoom,
    held: &[Formula],
    facts: &[&Fact],
) -> Result<Draft, AllocError>
    requires held { HaveVariables (var_of items.now.keys) (together (map mentioned held.now)) }
    requires facts { HaveVariables (var_of items.now.keys) (order.mentioned_in (map (λ f. f.now) facts.now)) }
    ensures settled { IfOk result (λ d. IsSettled items.now.keys d.written) }
    ensures draft { IfOk result (λ d. IsDraft (order.form_before items.now.keys held.now (map (λ f. f.now) facts.now)) d.written d.clauses.items) }
{
    let vars = Variables::new(items, room);
    let draft = drafted_over(alloc, &vars, held, facts)?;
    Ok(draft)
}

/// The clauses of formulas that are held and of facts, all in order, over these variables.
fn drafted_over(
    alloc: Global,
    vars: &Variables<'_>,
    held: &[Formula],
    facts: &[&Fact],
) -> Result<Draft, AllocError>
    requires held { HaveVariables (var_of vars.now) (together (map mentioned held.now)) }
    requires facts { HaveVariables (var_of vars.now) (order.mentioned_in (map (λ f. f.now) facts.now)) }
    ensures settled { IfOk result (λ d. IsSettled vars.now d.written) }
    ensures draft { IfOk result (λ d. IsDraft (order.form_before vars.now held.now (map (λ f. f.now) facts.now)) d.written d.clauses.items) }
{
    let nodes = nodes_of(alloc, facts)?;
    let count = vars.len();
    let mut draft = Draft::new(alloc, count as u64, count.saturating_mul(CLAUSES_PER_ITEM))?;
    add_formulas(alloc, vars, held, &mut draft)?;
    add_stage(alloc, vars, Stage::Symbols, &nodes, facts, &mut draft)?;
    add_stage(alloc, vars, Stage::Starts, &nodes, facts, &mut draft)?;
    add_stage(alloc, vars, Stage::Blocks, &nodes, facts, &mut draft)?;
    add_stage(alloc, vars, Stage::States, &nodes, facts, &mut draft)?;
    Ok(draft)
}

/// Adds the clauses of formulas that are held.
pub fn add_formulas(
    alloc: Global,
    vars: &Variables<'_>,
    fs: &[Formula],
    draft: &mut Draft,
) -> Result<(), AllocError>
    requires known { HaveVariables (var_of vars.now) (together (map mentioned fs.now)) }
    requires settled { IsSettled vars.now draft.old.written }
    ensures settled { OnOk result (IsSettled vars.now draft.new.written) }
    ensures draft { OnOk result ((s : spec.Form) → IsDraft s draft.old.written draft.old.clauses.items → IsDraft (hold_each (var_of vars.now) fs.now s) draft.new.written draft.new.clauses.items) }
{
    hold_each(alloc, vars, fs, &mut draft.written)?;
    draft.settle(alloc)?;
    Ok(())
}

/// Adds the clauses of a stage: it reads the facts that come in it, and no others.
fn add_stage(
    alloc: Global,
    vars: &Variables<'_>,
    stage: Stage,
    nodes: &[Node],
    facts: &[&Fact],
    draft: &mut Draft,
) -> Result<(), AllocError>
    requires nodes { nodes.now ≡ map (λ f. f.now.node) facts.now }
    requires known { HaveVariables (var_of vars.now) (order.mentioned_in (map (λ f. f.now) facts.now)) }
    requires settled { IsSettled vars.now draft.old.written }
    ensures settled { OnOk result (IsSettled vars.now draft.new.written) }
    ensures draft { OnOk result ((s : spec.Form) → IsDraft s draft.old.written draft.old.clauses.items → IsDraft (order.staged (var_of vars.now) stage (map (λ f. f.now) facts.now) s) draft.new.written draft.new.clauses.items) }
{
    for place in 0..facts.len() {
        add_fact(alloc, vars, stage, nodes[place], facts[place], draft)?;
    }
    Ok(())
}

/// Adds the clauses of the node's fact in a stage, if there are any.
fn add_fact(
    alloc: Global,
    vars: &Variables<'_>,
    stage: Stage,
    node: Node,
    fact: &Fact,
    draft: &mut Draft,
) -> Result<(), AllocError>
    requires node { node ≡ fact.now.node }
    requires known { HaveVariables (var_of vars.now) (order.mentioned_of fact.now) }
    requires settled { IsSettled vars.now draft.old.written }
    ensures settled { OnOk result (IsSettled vars.now draft.new.written) }
    ensures draft { OnOk result ((s : spec.Form) → IsDraft s draft.old.written draft.old.clauses.items → IsDraft (defined_each (var_of vars.now) (order.defined_in stage fact.now) (hold_each (var_of vars.now) (order.held_in stage fact.now) s)) draft.new.written draft.new.clauses.items) }
{
    if stage.takes(node) {
        add_taken(alloc, vars, stage, fact, draft)
    } else {
        Ok(())
    }
}

/// Adds the clauses of a fact in a stage.
fn add_taken(
    alloc: Global,
    vars: &Variables<'_>,
    stage: Stage,
    fact: &Fact,
    draft: &mut Draft,
) -> Result<(), AllocError>
    requires known { HaveVariables (var_of vars.now) (order.mentioned_of fact.now) }
    requires settled { IsSettled vars.now draft.old.written }
    ensures settled { OnOk result (IsSettled vars.now draft.new.written) }
    ensures draft { OnOk result ((s : spec.Form) → IsDraft s draft.old.written draft.old.clauses.items → IsDraft (defined_each (var_of vars.now) (order.defined_in stage fact.now) (hold_each (var_of vars.now) (order.held_in stage fact.now) s)) draft.new.written draft.new.clauses.items) }
{
    add_held(alloc, vars, stage, fact, &mut draft.written)?;
    add_defined(alloc, vars, stage, fact, &mut draft.written)?;
    draft.settle(alloc)?;
    Ok(())
}

/// Adds the clauses of what a fact holds in a stage.
fn add_held(
    alloc: Global,
    vars: &Variables<'_>,
    stage: Stage,
    fact: &Fact,
    b: &mut Builder,
) -> Result<(), AllocError>
    ensures { OnOk result (b.new ≡ hold_each (var_of vars.now) (order.held_in stage fact.now) b.old) }
{
    if stage.holds(fact.node) {
        hold_each(alloc, vars, fact.holds.as_slice(), b)
    } else {
        Ok(())
    }
}

/// Adds the clauses of what a fact defines in a stage.
fn add_defined(
    alloc: Global,
    vars: &Variables<'_>,
    stage: Stage,
    fact: &Fact,
    b: &mut Builder,
) -> Result<(), AllocError>
    ensures { OnOk result (b.new ≡ defined_each (var_of vars.now) (order.defined_in stage fact.now) b.old) }
{
    if stage.defines(fact.node) {
        define_each(alloc, vars, fact.defines.as_slice(), b)
    } else {
        Ok(())
    }
}
