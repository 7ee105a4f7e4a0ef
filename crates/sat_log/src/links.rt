ghost use Rattle.std.specs.Prelude.{◌≡◌, ◌∷◌, ◌+◌, ◌*◌, ◌^◌, ◌<◌, ◌≤◌, [], length, slice_set, All, IfOk, OnOk, vec_len};
ghost use Rattle.sat_log.specs.Links.{none, HasGrown, IsLinked, IsTaken};

use std::alloc::{AllocError, Global};

/// What stands where no slot follows.
pub const NONE: u32 = 4_294_967_295;

/// Each clause has two slots, one for each of its watches. The slots that watch a literal are a list.
#[derive(Drop)]
pub struct Links {
    /// The literal that a slot watches.
    pub watched: Vec<u32>,

    /// The first slot that watches a literal.
    pub heads: Vec<u32>,

    /// The slot behind a slot.
    pub next: Vec<u32>,

    /// How many slots watch.
    pub slots: usize,
}

/// So many times no slot.
fn empty_heads(alloc: Global, count: usize) -> Result<Vec<u32>, AllocError>
    ensures { IfOk result (λ heads. (vec_len heads ≡ count) × All (λ first. first ≡ none) heads.items) }
{
    let mut heads = Vec::new(alloc);
    for i in 0..count {
        heads.push(NONE)?;
    }
    Ok(heads)
}

impl Links {
    /// No slot, for the literals of so many variables.
    pub fn new(alloc: Global, vars: usize) -> Result<Links, AllocError>
        requires { vars < 2 ^ 31 }
        ensures linked { IfOk result (λ links. IsLinked links none []) }
        ensures heads { IfOk result (λ links. length links.heads.items ≡ vars * 2 + 2) }
        ensures slots { IfOk result (λ links. links.slots ≡ 0) }
    {
        let heads = empty_heads(alloc, 2 * vars + 2)?;
        Ok(Links {
            watched: Vec::new(alloc),
            heads,
            next: Vec::new(alloc),
            slots: 0,
        })
    }

    /// Makes room for the slots of one clause more.
    pub fn grow(&mut self) -> Result<(), AllocError>
        ensures grown { HasGrown self.old self.new }
        ensures watched { OnOk result (length self.old.watched.items + 2 ≤ length self.new.watched.items) }
        ensures next { OnOk result (length self.old.next.items + 2 ≤ length self.new.next.items) }
    {
        self.grow_by_one()?;
        self.grow_by_one()
    }

    fn grow_by_one(&mut self) -> Result<(), AllocError>
        ensures grown { HasGrown self.old self.new }
        ensures watched { OnOk result (length self.old.watched.items + 1 ≤ length self.new.watched.items) }
        ensures next { OnOk result (length self.old.next.items + 1 ≤ length self.new.next.items) }
    {
        self.next.push(NONE)?;
        self.watched.push(0)?;
        Ok(())
    }

    /// Lets the next two slots watch two literals.
    pub fn add_both(&mut self, first: u32, second: u32)
        requires linked { IsLinked self.old none [] }
        requires first { first < length self.old.heads.items }
        requires second { second < length self.old.heads.items }
        requires next { self.old.slots + 2 ≤ length self.old.next.items }
        requires watched { self.old.slots + 2 ≤ length self.old.watched.items }
        requires few { self.old.slots + 2 < none }
        ensures linked { IsLinked self.new none [] }
        ensures watched { self.new.watched.items ≡
            slice_set (slice_set self.old.watched.items self.old.slots first) (self.old.slots + 1) second }
        ensures slots { self.new.slots ≡ self.old.slots + 2 }
        ensures heads { length self.new.heads.items ≡ length self.old.heads.items }
    {
        self.add(first);
        self.add(second);
    }

    /// Lets the next slot watch a literal.
    fn add(&mut self, code: u32)
        requires linked { IsLinked self.old none [] }
        requires code { code < length self.old.heads.items }
        requires next { self.old.slots < length self.old.next.items }
        requires watched { self.old.slots < length self.old.watched.items }
        requires few { self.old.slots + 1 < none }
        ensures linked { IsLinked self.new none [] }
        ensures watched { self.new.watched.items ≡ slice_set self.old.watched.items self.old.slots code }
        ensures slots { self.new.slots ≡ self.old.slots + 1 }
        ensures heads { length self.new.heads.items ≡ length self.old.heads.items }
        ensures next { length self.new.next.items ≡ length self.old.next.items }
    {
        let slot = self.slots;
        self.watched[slot] = code;
        self.next[slot] = NONE;
        self.slots = slot + 1;
        self.put_back(slot as u32, code);
    }

    /// Takes the list of a literal off, and gives its first slot.
    pub fn take_list(&mut self, code: u32) -> u32
        requires linked { IsLinked self.old none [] }
        requires code { code < length self.old.heads.items }
        ensures taken { IsTaken self.old self.new code result }
    {
        let first = self.heads[code as usize];
        self.heads[code as usize] = NONE;
        first
    }

    /// Lets the first slot of a list that was taken off watch a literal, and gives the slot behind it.
    pub fn put_back(&mut self, slot: u32, code: u32) -> u32
        requires linked { (rest : _) × IsLinked self.old slot (slot ∷ rest) }
        requires code { code < length self.old.heads.items }
        ensures linked { (rest : _) → IsLinked self.old slot (slot ∷ rest) → IsLinked self.new result rest }
        ensures watched { self.new.watched.items ≡ slice_set self.old.watched.items slot code }
        ensures slots { self.new.slots ≡ self.old.slots }
        ensures heads { length self.new.heads.items ≡ length self.old.heads.items }
        ensures next { length self.new.next.items ≡ length self.old.next.items }
    {
        let rest = self.next[slot as usize];
        self.watched[slot as usize] = code;
        self.next[slot as usize] = self.heads[code as usize];
        self.heads[code as usize] = slot;
        rest
    }
}
