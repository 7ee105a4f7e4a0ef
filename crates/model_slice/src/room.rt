ghost use Rattle.std.specs.Prelude.{◌≡◌, ◌<◌, length, set, slice_index_or, IfOk};

use std::alloc::{AllocError, Global};
use std::marker::Model;

/// A number for each symbol of a tree, lent to one search after another for it to note where it has put the
/// symbol.
///
/// What the last search noted stays in it: who reads a number looks at what stands at that place before
/// anything rests on it. So nothing is ever cleared.
#[derive(Debug, Drop)]
pub struct SymbolRoom {
    places: Vec<usize>,
}

impl Model for SymbolRoom {
    ghost use Rattle.std.specs.Prelude.{List, ℕ};

    ghost Value = { List ℕ };

    ghost view = { λ r. r.places.items };
}

impl SymbolRoom {
    /// Room for symbols with numbers below this. The only error is want of memory.
    pub fn new(alloc: Global, symbols: usize) -> Result<SymbolRoom, AllocError>
        ensures { IfOk result (λ room. length room ≡ symbols) }
    {
        let mut places = Vec::new(alloc);
        places.resize(symbols, 0)?;
        Ok(SymbolRoom { places })
    }

    /// For how many symbols there is room.
    pub fn len(&self) -> usize
        ensures { result ≡ length self.now }
    {
        self.places.len()
    }

    /// What was noted last for a symbol, by whichever search.
    pub fn place(&self, sym: u32) -> usize
        requires { sym < length self.now }
        ensures { result ≡ slice_index_or self.now sym 0 }
    {
        self.places[sym as usize]
    }

    /// Notes a place for a symbol.
    pub fn note(&mut self, sym: u32, place: usize)
        requires { sym < length self.old }
        ensures { self.new ≡ set self.old sym place }
    {
        self.places[sym as usize] = place;
    }
}
