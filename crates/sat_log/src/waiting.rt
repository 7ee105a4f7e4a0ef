ghost use Rattle.std.specs.Prelude.{◌≡◌, ◌≢◌, ◌↔◌, ◌++◌, ◌∷◌, ◌+◌, ◌<◌, ◌≤◌, ℕ, [], length, Contains, IfNone, IfSome, IsTrue, OnErr, OnOk};

use std::alloc::{AllocError, Global};
use std::marker::Model;

/// Places of clauses that wait to be looked at, each at most once; the last one comes first.
#[derive(Drop)]
pub struct Waiting {
    places: Vec<u32>,
    listed: Vec<bool>,
    count: usize,
}

impl Model for Waiting {
    ghost use Rattle.sat_log.specs.Waiting.{WaitingView};

    ghost Value = { WaitingView };

    ghost use Rattle.sat_log.specs.Waiting.{AreWaiting};
    ghost use Rattle.std.specs.Prelude.{length, take};

    ghost view = { λ w. record { room = length w.listed.items; list = take w.count w.places.items } };

    ghost invariant = { λ w. AreWaiting w.places.items w.listed.items w.count };
}

impl Waiting {
    /// Nothing waits, and there is no room.
    pub fn new(alloc: Global) -> Waiting
        ensures room { result.room ≡ 0 }
        ensures list { result.list ≡ [] }
    {
        Waiting {
            places: Vec::new(alloc),
            listed: Vec::new(alloc),
            count: 0,
        }
    }

    /// Makes room for one place more.
    pub fn grow(&mut self) -> Result<(), AllocError>
        ensures ok { OnOk result (self.new.room ≡ self.old.room + 1) }
        ensures err { OnErr result (self.new.room ≡ self.old.room) }
        ensures more { self.old.room ≤ self.new.room }
        ensures list { self.new.list ≡ self.old.list }
    {
        self.places.push(0)?;
        self.listed.push(false)?;
        Ok(())
    }

    /// Lets a place wait.
    pub fn add(&mut self, place: u32)
        requires { place < self.old.room }
        ensures room { self.new.room ≡ self.old.room }
        ensures added { Contains self.new.list place }
        ensures kept { (j : ℕ) → Contains self.old.list j → Contains self.new.list j }
        ensures only { (j : ℕ) → Contains self.new.list j → j ≢ place → Contains self.old.list j }
    {
        let is_listed = self.listed[place as usize];
        if is_listed {
            return;
        }
        self.listed[place as usize] = true;
        self.places[self.count] = place;
        self.count += 1;
    }

    /// The place that comes first.
    pub fn first(&self) -> Option<u32>
        ensures some { IfSome result (λ place. (rest : _) × (self.now.list ≡ rest ++ place ∷ [])) }
        ensures none { IfNone result (self.now.list ≡ []) }
    {
        if self.count == 0 {
            return None;
        }
        Some(self.places[self.count - 1])
    }

    /// Whether nothing waits.
    fn is_empty(&self) -> bool
        ensures { IsTrue result ↔ (self.now.list ≡ []) }
    {
        self.count == 0
    }

    /// Takes the place that comes first away.
    pub fn take_first(&mut self)
        requires { 0 < length self.old.list }
        ensures room { self.new.room ≡ self.old.room }
        ensures list { (place : _) × (self.old.list ≡ self.new.list ++ place ∷ []) }
    {
        self.count -= 1;
        let place = self.places[self.count];
        self.listed[place as usize] = false;
    }

    /// Lets nothing wait.
    pub fn clear(&mut self)
        ensures room { self.new.room ≡ self.old.room }
        ensures list { self.new.list ≡ [] }
    {
        while !self.is_empty() {
            self.take_first();
        }
    }
}
