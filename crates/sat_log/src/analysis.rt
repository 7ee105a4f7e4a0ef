ghost use Rattle.std.specs.Prelude.{◌≡◌, ◌⊎◌, ◌+◌, ◌-◌, ◌^◌, ◌<◌, ◌≤◌, true, false, length, slice_index_or, All, IfNone, IfOk, IfSome, OnOk, []};
ghost use Rattle.std.specs.Bool.{OnTrue};
ghost use Rattle.ut_logic.specs.Clauses.{AreWithin};
ghost use Rattle.log_check.specs.Derivations.{ChainGives, IsNumbered};
ghost use Rattle.log_check.specs.Resolution.{HasNoResolvent};
ghost use Rattle.sat_log.specs.Inner.{AreApart, AreReasons, IsExplained, IsResolvedStep};
ghost use Rattle.sat_log.specs.Moves.{IsFalseClause};
ghost use Rattle.sat_log.specs.Placing.{AreAtPlaces, IsAloneFrom, IsLatestPlace, IsPivot};
ghost use Rattle.sat_log.specs.Trails.{IsCut};

use crate::marks::Mark;
use crate::store::Store;
use log_check::{Chain, DerivationLine, PivotOf, resolve};
use std::alloc::{AllocError, Global};
use ut_logic::{Clause, Lit, Sequence};

/// The later one of two places.
fn later(a: usize, b: usize) -> usize
    ensures first { b ≤ a → result ≡ a }
    ensures second { a < b → result ≡ b }
{
    if a < b { b } else { a }
}

/// One more, if it is so.
fn counted(count: u64, more: bool) -> u64
    requires { count < 2 ^ 64 - 1 }
    ensures more { more ≡ true → result ≡ count + 1 }
    ensures same { more ≡ false → result ≡ count }
{
    if more {
        return count + 1;
    }
    count
}

/// Where the literal of a false clause stands that became false last.
fn latest_place(lits: &[Lit], at: &[u32]) -> usize
    requires { All (λ (l : _). (0 < l.var) × (l.var ≤ length at.now)) lits.now }
    ensures { IsLatestPlace lits.now at.now result }
{
    let mut place = 0;
    for lit in lits {
        place = later(place, at[(lit.var - 1) as usize] as usize);
    }
    place
}

/// Whether one literal of a false clause stands from a place on.
fn is_alone(lits: &[Lit], at: &[u32], from: usize) -> bool
    requires { All (λ (l : _). (0 < l.var) × (l.var ≤ length at.now)) lits.now }
    ensures { OnTrue result (IsAloneFrom lits.now at.now from) }
{
    let mut count = 0u64;
    for lit in lits {
        count = counted(count, from <= at[(lit.var - 1) as usize] as usize);
    }
    count == 1
}

/// The place of the literal to resolve away next from a false clause: the one that became false last, if it
/// is forced and not the only one from a decided place on.
fn next_pivot(marks: &[Mark], at: &[u32], lits: &[Lit], from: usize) -> Option<usize>
    requires apart { AreApart marks.now }
    requires placed { AreAtPlaces marks.now at.now }
    requires within { All (λ (l : _). (0 < l.var) × (l.var ≤ length at.now)) lits.now }
    requires is_false { IsFalseClause marks.now lits.now }
    requires decided { (d : _) → from < length marks.now → (slice_index_or marks.now from d).decided ≡ true }
    ensures pivot { IfSome result (λ place. IsPivot marks.now lits.now place) }
    ensures none { IfNone result ((lits.now ≡ []) ⊎ ((k : _) × IsCut marks.now lits.now k)) }
{
    if lits.len() == 0 {
        return None;
    }
    if is_alone(lits, at, from) {
        return None;
    }
    let place = latest_place(lits, at);
    if marks[place].decided {
        return None;
    }
    Some(place)
}

/// Resolves a variable away by a known clause.
fn step_back(
    alloc: Global,
    store: &Store,
    pivot: u64,
    number: u64,
    acc: &mut Clause,
    pairs: &mut Vec<PivotOf>,
) -> Result<(), AllocError>
    requires { (c : _) × IsNumbered store.now number c × (¬ HasNoResolvent acc.old c pivot) }
    ensures { OnOk result (IsResolvedStep store.now pivot number acc.old pairs.old.items acc.new pairs.new.items) }
{
    let next = store.clause(alloc, (number - 1) as usize)?;
    match resolve(alloc, acc, &next, pivot)? {
        Some(found) => {
            pairs.push(PivotOf {
                pivot,
                clause: number,
            })?;
            *acc = found;
            Ok(())
        }
        None => unreachable!(),
    }
}

/// The place with a number that counts from 1, or this one where the number is 0.
fn place_before(number: usize, none: usize) -> usize
    ensures some { 0 < number → result ≡ number - 1 }
    ensures none { number ≡ 0 → result ≡ none }
{
    if number == 0 {
        return none;
    }
    number - 1
}

/// Resolves the latest literal away from a false clause, again and again, until one is left from the last
/// decided place on, or none at all where nothing is decided: the line says how.
///
/// `decided` is the last decided place, counted from 1, or 0.
pub fn resolved_back(
    alloc: Global,
    store: &Store,
    marks: &[Mark],
    reasons: &[u64],
    at: &[u32],
    decided: usize,
    conflict: u64,
) -> Result<DerivationLine, AllocError>
    requires apart { AreApart marks.now }
    requires reasons { AreReasons store.now marks.now reasons.now }
    requires placed { AreAtPlaces marks.now at.now }
    requires within { AreWithin (length at.now) store.now }
    requires vars { All (λ (m : _). (0 < m.lit.var) × (m.lit.var ≤ length at.now)) marks.now }
    requires decided { (d : _) → 0 < decided → (decided ≤ length marks.now) × ((slice_index_or marks.now (decided - 1) d).decided ≡ true) }
    requires number { (0 < conflict) × (conflict ≤ length store.now) }
    requires conflict { (c : _) → IsNumbered store.now conflict c → IsFalseClause marks.now c }
    ensures derived { IfOk result (λ line. ChainGives store.now line.chain line.result) }
    ensures ends { IfOk result (λ line. IsExplained store.now marks.now line.result) }
{
    let mut acc = store.clause(alloc, (conflict - 1) as usize)?;
    let mut pairs = Vec::new(alloc);
    let from = place_before(decided, marks.len());
    let mut end = marks.len();
    while let Some(place) = next_pivot(&marks[..end], at, acc.lits(), from) {
        step_back(
            alloc,
            store,
            marks[place].lit.var,
            reasons[place],
            &mut acc,
            &mut pairs,
        )?;
        end = place;
    }
    Ok(DerivationLine {
        result: acc,
        chain: Chain {
            first: conflict,
            pairs: Sequence::from_vec(pairs),
        },
    })
}
