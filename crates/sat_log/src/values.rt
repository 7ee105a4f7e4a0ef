ghost use Rattle.std.specs.Prelude.{◌≡◌, ◌-◌, ◌/◌, ◌^◌, ◌<◌, ◌≤◌, ◌↔◌, ℕ, length, slice_index, slice_index_or, slice_set, take, All, Any, Contains, IfOk, IsTrue, vec_len};
ghost use Rattle.sat_log.specs.Placing.{latest_for};
ghost use Rattle.sat_log.specs.Inner.{AreApart, AreValues, value_for};

use crate::marks::Mark;
use std::alloc::{AllocError, Global};
use ut_logic::Lit;

/// What a variable is set to.
#[derive(Clone, Copy, Debug, PartialEq, Eq)]
pub enum Value {
    Unset,
    True,
    False,
}

/// So many unset values.
pub fn unset_values(alloc: Global, n: usize) -> Result<Vec<Value>, AllocError>
    ensures { IfOk result (λ v. (vec_len v ≡ n) × All (λ (x : _). x ≡ Value.Unset) v.items) }
{
    let mut values = Vec::new(alloc);
    for i in 0..n {
        values.push(Value::Unset)?;
    }
    Ok(values)
}

/// Writes a mark behind the set ones, its reason, and its variable's value.
pub fn put(
    marks: &mut Vec<Mark>,
    reasons: &mut Vec<u64>,
    set: usize,
    values: &mut Vec<Value>,
    mark: Mark,
    reason: u64,
)
    requires room { set < vec_len marks.old }
    requires reasons { vec_len reasons.old ≡ vec_len marks.old }
    requires var { (0 < mark.lit.var) × (mark.lit.var ≤ vec_len values.old) }
    ensures marks { marks.new.items ≡ slice_set marks.old.items set mark }
    ensures reasons { reasons.new.items ≡ slice_set reasons.old.items set reason }
    ensures values { values.new.items ≡ slice_set values.old.items (mark.lit.var - 1) (value_for mark.lit.positive) }
{
    marks[set] = mark;
    reasons[set] = reason;
    let place = (mark.lit.var - 1) as usize;
    if mark.lit.positive {
        values[place] = Value::True;
    } else {
        values[place] = Value::False;
    }
}

/// Whether the variable has no value.
pub fn is_unset(value: Value) -> bool
    ensures { IsTrue result ↔ (value ≡ Value.Unset) }
{
    match value {
        Value::Unset => true,
        _ => false,
    }
}

/// A literal whose variable has no value, by its number.
pub fn unset_code(codes: &[u32], values: &[Value]) -> u32
    requires within { All (λ code. (2 ≤ code) × (code / 2 ≤ length values.now)) codes.now }
    requires some { Any (λ code. slice_index_or values.now (code / 2 - 1) Value.Unset ≡ Value.Unset) codes.now }
    ensures inside { Contains codes.now result }
    ensures unset { slice_index_or values.now (result / 2 - 1) Value.Unset ≡ Value.Unset }
{
    for code in codes {
        if is_unset(values[(*code / 2 - 1) as usize]) {
            return *code;
        }
    }
    unreachable!()
}

/// The latest decided place behind a new mark, counted from 1.
fn latest_after(latest: &[u32], set: usize, decided: bool) -> u32
    requires set { set ≤ length latest.now }
    requires few { set < 2 ^ 31 }
    ensures { result ≡ latest_for decided set latest.now }
{
    if decided {
        return set as u32 + 1;
    }
    if set == 0 {
        return 0;
    }
    latest[set - 1]
}

/// The latest decided place of the first so many, counted from 1, or 0.
pub fn last_decided(latest: &[u32], set: usize) -> usize
    requires { set ≤ length latest.now }
    ensures some { 0 < set → result ≡ slice_index latest.now (set - 1) }
    ensures none { set ≡ 0 → result ≡ 0 }
{
    if set == 0 {
        return 0;
    }
    latest[set - 1] as usize
}

/// Writes where the variable of a new mark stands, and the latest decided place behind it.
pub fn stand(at: &mut Vec<u32>, latest: &mut Vec<u32>, set: usize, place: usize, decided: bool)
    requires at { place < vec_len at.old }
    requires latest { set < vec_len latest.old }
    requires few { set < 2 ^ 31 }
    ensures at { at.new.items ≡ slice_set at.old.items place set }
    ensures latest { latest.new.items ≡ slice_set latest.old.items set (latest_for decided set latest.old.items) }
{
    at[place] = set as u32;
    latest[set] = latest_after(latest.as_slice(), set, decided);
}

/// The first place of an unset variable.
pub fn first_unset(values: &[Value], low: usize) -> usize
    requires below { (k : ℕ) → k < low → ¬ (slice_index_or values.now k Value.Unset ≡ Value.Unset) }
    requires some { (k : ℕ) × (k < length values.now) × (slice_index_or values.now k Value.Unset ≡ Value.Unset) }
    ensures within { result < length values.now }
    ensures unset { slice_index_or values.now result Value.Unset ≡ Value.Unset }
    ensures first { (k : ℕ) → k < result → ¬ (slice_index_or values.now k Value.Unset ≡ Value.Unset) }
{
    let mut place = low;
    while !is_unset(values[place]) {
        place += 1;
    }
    place
}

/// The first place of an unset variable from a place on, or the length.
pub fn first_unset_or_end(values: &[Value], low: usize) -> usize
    requires low { low ≤ length values.now }
    requires below { (k : ℕ) → k < low → ¬ (slice_index_or values.now k Value.Unset ≡ Value.Unset) }
    ensures within { result ≤ length values.now }
    ensures unset { result < length values.now → slice_index_or values.now result Value.Unset ≡ Value.Unset }
    ensures first { (k : ℕ) → k < result → ¬ (slice_index_or values.now k Value.Unset ≡ Value.Unset) }
{
    for place in low..values.len() {
        if is_unset(values[place]) {
            return place;
        }
    }
    values.len()
}

/// Takes the values of the marks from a place on away.
pub fn clear(values: &mut Vec<Value>, marks: &[Mark], from: usize)
    requires from { from ≤ length marks.now }
    requires apart { AreApart marks.now }
    requires vars { All (λ (m : _). (0 < m.lit.var) × (m.lit.var ≤ vec_len values.old)) marks.now }
    requires values { AreValues (vec_len values.old) marks.now values.old.items }
    ensures { AreValues (vec_len values.old) (take from marks.now) values.new.items }
{
    for i in from..marks.len() {
        values[(marks[i].lit.var - 1) as usize] = Value::Unset;
    }
}
