ghost use Rattle.std.specs.Prelude.{◌≡◌, ◌^◌, ◌<◌, ◌≤◌, ℕ, true, length, slice_index_or, All};
ghost use Rattle.sat_log.specs.declared.marks.Mark.{Mark};
ghost use Rattle.sat_log.specs.Placing.{AreLatest, AreLatestTwo, behind_of, IsFirstDecided};

use crate::marks::Mark;
use crate::values::Value;
use ut_logic::Lit;

/// The literals of a clause that stand last in the trail, by their places in the clause.
#[derive(Clone, Copy)]
pub struct LatestTwo {
    pub first: usize,

    /// The same as the first where there is one literal.
    pub second: usize,

    /// The first place of the trail behind the second one, 0 where there is one literal.
    pub bound: usize,

    /// The first place of the trail behind the first one.
    pub last: usize,
}

impl LatestTwo {
    /// With one literal more, which stands before this place of the trail.
    fn with(self, literal: usize, behind: usize) -> LatestTwo
        ensures last { self.last < behind →
            (result.first ≡ literal) × (result.second ≡ self.first) × (result.bound ≡ self.last) × (result.last ≡ behind) }
        ensures second { behind ≤ self.last → self.bound < behind →
            (result.first ≡ self.first) × (result.second ≡ literal) × (result.bound ≡ behind) × (result.last ≡ self.last) }
        ensures neither { behind ≤ self.last → behind ≤ self.bound → result ≡ self }
    {
        if self.last < behind {
            return LatestTwo {
                first: literal,
                second: self.first,
                bound: self.last,
                last: behind,
            };
        }
        if self.bound < behind {
            return LatestTwo {
                first: self.first,
                second: literal,
                bound: behind,
                last: self.last,
            };
        }
        self
    }
}

/// The place of the trail behind the literal's variable; behind all where it isn't set.
fn behind(at: &[u32], values: &[Value], set: usize, lit: Lit) -> usize
    requires set { set < 2 ^ 32 }
    requires low { 0 < lit.var }
    requires at { lit.var ≤ length at.now }
    requires values { lit.var ≤ length values.now }
    ensures behind { result ≡ behind_of at.now values.now set lit }
    ensures some { 0 < result }
{
    let place = (lit.var - 1) as usize;
    match values[place] {
        Value::Unset => set + 1,
        Value::True => at[place] as usize + 1,
        Value::False => at[place] as usize + 1,
    }
}

/// The two literals that stand last in the trail, unset ones behind all.
pub fn latest_two(at: &[u32], values: &[Value], set: usize, lits: &[Lit]) -> LatestTwo
    requires some { 0 < length lits.now }
    requires set { set < 2 ^ 32 }
    requires at { All (λ (l : _). (0 < l.var) × (l.var ≤ length at.now)) lits.now }
    requires values { All (λ (l : _). (0 < l.var) × (l.var ≤ length values.now)) lits.now }
    ensures { AreLatestTwo at.now values.now set lits.now result.first result.second result.bound }
{
    let mut found = LatestTwo {
        first: 0,
        second: 0,
        bound: 0,
        last: behind(at, values, set, lits[0]),
    };
    for i in 1..lits.len() {
        found = found.with(i, behind(at, values, set, lits[i]));
    }
    found
}

/// The first decided place of the trail from a place on.
pub fn cut_behind(marks: &[Mark], latest: &[u32], bound: usize) -> usize
    requires some { (k : ℕ) × (bound ≤ k) × (k < length marks.now) × ((d : Mark) → (slice_index_or marks.now k d).decided ≡ true) }
    requires latest { AreLatest marks.now latest.now }
    requires room { length marks.now ≤ length latest.now }
    ensures { IsFirstDecided marks.now bound result }
{
    let mut cut = latest[marks.len() - 1] as usize - 1;
    while cut > bound {
        let before = latest[cut - 1] as usize;
        if before <= bound {
            return cut;
        }
        cut = before - 1;
    }
    cut
}
