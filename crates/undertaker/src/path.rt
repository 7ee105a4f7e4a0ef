ghost use Rattle.std.specs.Prelude.{◌≡◌, ℕ, Bool, [], ◌∷◌, ◌++◌, IfOk, OnOk, OnErr};
ghost use Rattle.std.specs.List.{list_any, list_all};
ghost use Rattle.undertaker.specs.Wishes as spec;
ghost use Rattle.undertaker.specs.Steps.{behind};
ghost use Rattle.undertaker.specs.Levels.{wishes_of};
ghost use Rattle.undertaker.specs.Marks.{is_marked};

use crate::numbers::put;
use crate::wishes::Wish;
use std::alloc::{AllocError, Global};
use std::marker::Model;

/// The wish of an open block, and whether some two of the wishes up to it clash.
#[derive(Clone, Copy, Debug, PartialEq, Eq)]
struct Level {
    wish: Wish,
    clashes: bool,
}

/// The wishes of the open blocks, which contracts see from the innermost to the outermost.
#[derive(Drop)]
pub struct Path {
    levels: Vec<Level>,
}

impl Model for Path {
    ghost use Rattle.std.specs.Prelude.{List, reverse};
    ghost use Rattle.undertaker.specs.declared.wishes.Wish.{Wish};

    ghost Value = { List Wish };

    ghost use Rattle.undertaker.specs.Levels.{wishes_of, AreLevels};

    ghost view = { λ p. wishes_of (reverse p.levels.items) };

    ghost invariant = { λ p. AreLevels (reverse p.levels.items) };
}

impl Path {
    /// Outside all blocks.
    pub fn new(alloc: Global) -> Path
        ensures { result ≡ [] }
    {
        Path {
            levels: Vec::new(alloc),
        }
    }

    /// Whether some two of the wishes and this one clash.
    pub fn clashes(&self, own: Wish) -> bool
        ensures { result ≡ spec.clashes (own ∷ self.now) }
    {
        any_clash(&self.levels, own) | self.is_clashing()
    }

    /// Whether the open blocks ask for something and its contrary.
    fn is_clashing(&self) -> bool
        ensures { result ≡ spec.clashes self.now }
    {
        match self.levels.last() {
            Some(level) => level.clashes,
            None => false,
        }
    }

    /// Opens a block with this wish inside the innermost one.
    pub fn open(&mut self, wish: Wish) -> Result<(), AllocError>
        ensures ok { OnOk result (self.new ≡ wish ∷ self.old) }
        ensures err { OnErr result (self.new ≡ self.old) }
    {
        let clashes = self.clashes(wish);
        self.levels.push(Level { wish, clashes })?;
        Ok(())
    }

    /// Closes the innermost block, if one is open.
    pub fn close(&mut self)
        ensures { self.new ≡ behind self.old }
    {
        let _level = self.levels.pop();
    }

    /// Whether one of the wishes, or this one, wants a macro that is never defined.
    pub fn wants_module(&self, own: Wish) -> bool
        ensures { result ≡ list_any spec.wants_module (own ∷ self.now) }
    {
        own.wants_module() | any_module(&self.levels)
    }

    /// Whether one of the wishes, or this one, wants a macro that is undeclared.
    pub fn wants_undeclared(&self, own: Wish) -> bool
        ensures { result ≡ list_any spec.wants_undeclared (own ∷ self.now) }
    {
        own.wants_undeclared() | any_undeclared(&self.levels)
    }

    /// Whether one of the wishes, or this one, asks that a marked symbol isn't there.
    pub fn is_hit(&self, own: Wish, marks: &[bool]) -> bool
        ensures { result ≡ list_any (spec.is_hit (is_marked marks.now)) (own ∷ self.now) }
    {
        own.is_hit(marks) | any_hit(&self.levels, marks)
    }

    /// The symbols that the wishes and this one want, in no stated order.
    pub fn wanted(&self, alloc: Global, own: Wish) -> Result<Vec<usize>, AllocError>
        ensures { IfOk result (λ v. (s : ℕ → Bool) → list_all s v.items ≡ list_all s (spec.wanted_symbols (own ∷ self.now))) }
    {
        wanted_of(alloc, own, &self.levels)
    }
}

/// The symbols that the open blocks and this wish ask for.
fn wanted_of(alloc: Global, own: Wish, levels: &[Level]) -> Result<Vec<usize>, AllocError>
    ensures { IfOk result (λ v. v.items ≡ spec.wanted_symbol own ++ spec.wanted_symbols (wishes_of levels.now)) }
{
    let mut symbols = Vec::new(alloc);
    put(&mut symbols, own.wanted())?;
    for level in levels {
        put(&mut symbols, level.wish.wanted())?;
    }
    Ok(symbols)
}

/// Whether the wish is contrary to one of an open block.
fn any_clash(levels: &[Level], own: Wish) -> bool
    ensures { result ≡ list_any (λ l. spec.clash own l.wish) levels.now }
{
    levels.iter().any(|level| own.clashes_with(level.wish))
}

/// Whether an open block asks for a symbol as a module.
fn any_module(levels: &[Level]) -> bool
    ensures { result ≡ list_any (λ l. spec.wants_module l.wish) levels.now }
{
    levels.iter().any(|level| level.wish.wants_module())
}

/// Whether an open block asks for an undeclared symbol.
fn any_undeclared(levels: &[Level]) -> bool
    ensures { result ≡ list_any (λ l. spec.wants_undeclared l.wish) levels.now }
{
    levels.iter().any(|level| level.wish.wants_undeclared())
}

/// Whether an open block asks for a marked symbol to be off.
fn any_hit(levels: &[Level], marks: &[bool]) -> bool
    ensures { result ≡ list_any (λ l. spec.is_hit (is_marked marks.now) l.wish) levels.now }
{
    levels.iter().any(|level| level.wish.is_hit(marks))
}
