ghost use Rattle.std.specs.Prelude.{◌≡◌, ◌≢◌, ◌↔◌, ◌++◌, ◌∷◌, ◌+◌, ◌-◌, ◌*◌, ◌/◌, ◌%◌, ◌^◌, ◌<◌, ◌≤◌, [], length, All, Contains, IfNone, IfOk, IfSome, IsTrue, OnOk};
ghost use Rattle.ut_logic.specs.Clauses.{AreWithin, IsClause, IsWithin};
ghost use Rattle.sat_log.specs.Codes.{truth_of};
ghost use Rattle.sat_log.specs.Links.{none};
ghost use Rattle.sat_log.specs.Moves.{IsForcing};
ghost use Rattle.sat_log.specs.Watches.{AreRead, AreWatched, clause_in, HasTrueWatch, IsSeen, IsToLearn, IsToVisit, IsVisiting};

use crate::codes::{code_of, truth_of};
use crate::links::{Links, NONE};
use crate::store::Store;
use crate::values::Value;
use crate::waiting::Waiting;
use std::alloc::{AllocError, Global};
use ut_logic::{Clause, Lit};

/// So many slots at most have numbers.
const MOST_SLOTS: usize = 4_294_967_292;

/// What a look at a clause shows that watches a false literal.
#[derive(Clone, Copy)]
pub enum Seen {
    /// The other watch is true.
    True,

    /// This literal isn't false, and isn't the other watch.
    Instead(u32),

    /// The other watch is unset, and the other literals are false.
    Forces,

    /// Each literal is false.
    False,
}

/// Whether the literal isn't false, and isn't the other watch.
fn may_watch(values: &[Value], code: u32, other: u32) -> bool
    requires code { (2 ≤ code) × (code / 2 ≤ length values.now) }
    ensures { IsTrue result ↔ ((code ≢ other) × (truth_of values.now code ≢ Value.False)) }
{
    if code == other {
        return false;
    }
    !is_false(truth_of(values, code))
}

/// Looks at a clause's literals, but for that of its other watch.
fn look(values: &[Value], codes: &[u32], other: u32) -> Seen
    requires codes { All (λ code. (2 ≤ code) × (code / 2 ≤ length values.now)) codes.now }
    requires other { (2 ≤ other) × (other / 2 ≤ length values.now) }
    ensures { IsSeen values.now codes.now other result }
{
    let value = truth_of(values, other);
    if is_true(value) {
        return Seen::True;
    }
    for code in codes {
        if may_watch(values, *code, other) {
            return Seen::Instead(*code);
        }
    }
    if is_false(value) {
        Seen::False
    } else {
        Seen::Forces
    }
}

fn is_true(value: Value) -> bool
    ensures { IsTrue result ↔ (value ≡ Value.True) }
{
    match value {
        Value::True => true,
        Value::False | Value::Unset => false,
    }
}

fn is_false(value: Value) -> bool
    ensures { IsTrue result ↔ (value ≡ Value.False) }
{
    match value {
        Value::False => true,
        Value::True | Value::Unset => false,
    }
}

/// The slot of the same clause's other watch.
fn other_slot(slot: u32) -> u32
    requires { slot < none }
    ensures { result ≡ slot / 2 * 2 + (1 - slot % 2) }
{
    slot / 2 * 2 + (1 - slot % 2)
}

/// The known clauses, with who watches what, and which of them wait as they may force a literal.
#[derive(Drop)]
pub struct Watched {
    pub store: Store,
    pub links: Links,
    pub waiting: Waiting,

    /// The number of a false clause, or 0.
    pub conflict: u64,

    /// How many clauses the visits looked at.
    pub visited: u64,
}

impl Watched {
    /// Visits the clauses that watch a literal which is false now.
    pub fn visit(&mut self, values: &[Value], code: u32)
        requires code { code < length self.old.links.heads.items }
        requires visit { (ms : _) × (m : _) × IsToVisit self.old values.now ms m code }
        ensures store { self.new.store ≡ self.old.store }
        ensures visited { (ms m : _) → IsToVisit self.old values.now ms m code → IsVisiting self.new values.now ms m code none [] }
    {
        let mut slot = self.links.take_list(code);
        let mut left = self.links.slots;
        while slot != NONE {
            slot = self.visit_slot(values, slot, code);
            left -= 1;
        }
    }

    /// Visits the clause of the first slot of the list that was taken off, and gives the slot behind it.
    fn visit_slot(&mut self, values: &[Value], slot: u32, code: u32) -> u32
        requires code { code < length self.old.links.heads.items }
        requires visit { (ms : _) × (m : _) × (rest : _) × IsVisiting self.old values.now ms m code slot (slot ∷ rest) }
        ensures store { self.new.store ≡ self.old.store }
        ensures slots { self.new.links.slots ≡ self.old.links.slots }
        ensures heads { length self.new.links.heads.items ≡ length self.old.links.heads.items }
        ensures visited { (ms m rest : _) → IsVisiting self.old values.now ms m code slot (slot ∷ rest) →
            IsVisiting self.new values.now ms m code result rest }
    {
        if self.conflict != 0 {
            return self.links.put_back(slot, code);
        }
        self.visited = self.visited.saturating_add(1);
        let place = slot / 2;
        let other = self.links.watched[other_slot(slot) as usize];
        let codes = self.store.codes(place as usize);
        match look(values, codes, other) {
            Seen::True => self.links.put_back(slot, code),
            Seen::Instead(instead) => self.links.put_back(slot, instead),
            Seen::Forces => {
                self.waiting.add(place);
                self.links.put_back(slot, code)
            }
            Seen::False => {
                self.conflict = u64::from(place) + 1;
                self.links.put_back(slot, code)
            }
        }
    }

    /// Whether one of a clause's watches is true.
    fn has_true_watch(&self, values: &[Value], place: u32) -> bool
        requires place { place < length self.now.store }
        requires calm { self.now.conflict ≡ 0 }
        requires watched { (ms : _) × AreRead values.now ms × AreWatched (length values.now) self.now ms }
        ensures { (ms : _) → AreRead values.now ms → AreWatched (length values.now) self.now ms →
            IsTrue result ↔ HasTrueWatch ms self.now place }
    {
        let slot = place as usize * 2;
        if is_true(truth_of(values, self.links.watched[slot])) {
            return true;
        }
        is_true(truth_of(values, self.links.watched[slot + 1]))
    }

    /// The place of a clause that forces a literal; the clauses that wait before it have a true watch.
    pub fn first_forcing(&mut self, values: &[Value]) -> Option<u32>
        requires calm { self.old.conflict ≡ 0 }
        requires watched { (ms : _) × AreRead values.now ms × AreWatched (length values.now) self.old ms }
        ensures store { self.new.store ≡ self.old.store }
        ensures watched { (ms : _) → AreRead values.now ms → AreWatched (length values.now) self.old ms →
            AreWatched (length values.now) self.new ms }
        ensures found { IfSome result (λ place. (ms : _) → AreRead values.now ms → AreWatched (length values.now) self.old ms →
            (place < length self.old.store) × IsForcing ms (clause_in self.old.store place)) }
        ensures none { IfNone result ((ms : _) → AreRead values.now ms → AreWatched (length values.now) self.old ms →
            (c : _) → Contains self.old.store c → ¬ IsForcing ms c) }
    {
        while let Some(place) = self.waiting.first() {
            if !self.has_true_watch(values, place) {
                return Some(place);
            }
            self.waiting.take_first();
        }
        None
    }

    /// Makes room for one clause more.
    pub fn grow(&mut self) -> Result<(), AllocError>
        requires { (n : _) × (ms : _) × AreWatched n self.old ms }
        ensures store { self.new.store ≡ self.old.store }
        ensures watched { (n ms : _) → AreWatched n self.old ms → AreWatched n self.new ms }
        ensures room { OnOk result (length self.new.store + 1 ≤ self.new.waiting.room) }
        ensures next_room { OnOk result (self.new.links.slots + 2 ≤ length self.new.links.next.items) }
        ensures watch_room { OnOk result (self.new.links.slots + 2 ≤ length self.new.links.watched.items) }
        ensures few_slots { OnOk result (self.new.links.slots + 2 < none) }
    {
        if self.links.slots >= MOST_SLOTS {
            return Err(AllocError);
        }
        self.links.grow()?;
        self.waiting.grow()
    }

    /// Lets two literals watch the clause that was added last, which may force one, and no other clause.
    pub fn learn(&mut self, first: u32, second: u32)
        requires { (n : _) × (ms : _) × IsToLearn n self.old ms first second }
        ensures store { self.new.store ≡ self.old.store }
        ensures learned { (n ms : _) → IsToLearn n self.old ms first second → AreWatched n self.new ms }
    {
        let place = (self.store.len() - 1) as u32;
        self.links.add_both(first, second);
        self.waiting.clear();
        self.waiting.add(place);
        self.conflict = 0;
    }

    /// Adds a clause of the clause form, under an empty trail.
    fn add(&mut self, vars: usize, lits: &[Lit]) -> Result<(), AllocError>
        requires clause { IsClause lits.now }
        requires within { IsWithin vars lits.now }
        requires watched { AreWatched vars self.old [] }
        ensures store { OnOk result (self.new.store ≡ self.old.store ++ lits.now ∷ []) }
        ensures watched { OnOk result (AreWatched vars self.new []) }
    {
        self.grow()?;
        self.store.push(lits)?;
        let number = self.store.len();
        if lits.len() == 0 {
            self.links.add_both(0, 0);
            self.conflict = number as u64;
            return Ok(());
        }
        let first = code_of(lits[0]);
        if lits.len() == 1 {
            self.links.add_both(first, first);
            self.waiting.add((number - 1) as u32);
            return Ok(());
        }
        self.links.add_both(first, code_of(lits[1]));
        Ok(())
    }
}

/// These clauses, watched under an empty trail.
pub fn watched_clauses(
    alloc: Global,
    vars: usize,
    clauses: &[Clause],
) -> Result<Watched, AllocError>
    requires vars { vars < 2 ^ 31 }
    requires within { AreWithin vars clauses.now }
    ensures store { IfOk result (λ w. w.store ≡ clauses.now) }
    ensures watched { IfOk result (λ w. AreWatched vars w []) }
{
    let links = Links::new(alloc, vars)?;
    let mut watched = Watched {
        store: Store::new(alloc),
        links,
        waiting: Waiting::new(alloc),
        conflict: 0,
        visited: 0,
    };
    for clause in clauses {
        watched.add(vars, clause.lits())?;
    }
    Ok(watched)
}
