ghost use Rattle.std.specs.Prelude.{◌≡◌, ◌++◌, ℕ, suc, List, [], IfOk, OnOk, if◌then◌else◌};
ghost use Rattle.std.specs.List.{sum_by};
ghost use Rattle.ut_text.specs.Bytes.{Bytes};
ghost use Rattle.ut_text.specs.Text.{text_eq};
ghost use Rattle.cpp_blocks.specs.Mentions.{firsts};
ghost use Rattle.cpp_blocks.specs.Counted.{turn_in, IsCounted, piece_turn};
ghost use Rattle.cpp_directives.specs.PieceNames.{names_of_piece};
ghost use Rattle.cpp_blocks.specs.Turns.{touched_at};

use cpp_directives::{What, piece_names};
use indexmap::{IndexMap, IndexSet};
use std::alloc::{AllocError, Global};
use ut_logic::Text;

/// How many macro lines of each name were passed so far.
#[derive(Drop)]
pub struct Turns {
    counts: IndexMap<Text, u32>,
}

impl Turns {
    /// No macro line was passed.
    pub fn new(alloc: Global) -> Turns
        ensures { IsCounted result [] }
    {
        Turns {
            counts: IndexMap::new(alloc),
        }
    }

    /// The turn of a name.
    pub fn of(&self, name: &Text) -> u32
        ensures { result ≡ turn_in self.now name.now }
    {
        self.counts.get(name).copied().unwrap_or(0)
    }

    /// The number of a piece: the sum of the turns of its names.
    pub fn of_piece(&self, alloc: Global, text: &Text) -> Result<u32, AllocError>
        ensures { IfOk result (λ turn. turn ≡ piece_turn self.now text.now) }
    {
        let names = piece_names(alloc, text.text().as_bytes())?;
        let names = distinct(alloc, &names)?;
        self.sum(names.as_slice())
    }

    /// The turns of these names, added up.
    fn sum(&self, names: &[Text]) -> Result<u32, AllocError>
        ensures { IfOk result (λ turn. turn ≡ sum_by (turn_in self.now) names.now) }
    {
        let mut turn: u32 = 0;
        for name in names {
            turn = turn.checked_add(self.of(name)).ok_or(AllocError)?;
        }
        Ok(turn)
    }

    /// Passes a directive. The only error is want of memory.
    pub fn pass(&mut self, alloc: Global, what: &What) -> Result<(), AllocError>
        ensures { OnOk result ((touched : List Bytes) → IsCounted self.old touched → IsCounted self.new (touched ++ touched_at what.now)) }
    {
        match what {
            What::Define { name, .. } => self.count(alloc, name),
            What::Undef { name } => self.count(alloc, name),
            What::If(_) | What::Elif(_) | What::Else | What::Endif => Ok(()),
        }
    }

    /// One more macro line of the name.
    fn count(&mut self, alloc: Global, name: &Text) -> Result<(), AllocError>
        ensures { OnOk result ((x : Bytes) → turn_in self.new x ≡ (if text_eq name.now x then suc (turn_in self.old name.now) else turn_in self.old x)) }
    {
        let turn = self.of(name).checked_add(1).ok_or(AllocError)?;
        self.counts.insert(name.copy(alloc)?, turn)?;
        Ok(())
    }
}

/// The names, each once.
fn distinct(alloc: Global, names: &[Text]) -> Result<IndexSet<Text>, AllocError>
    ensures { IfOk result (λ s. s.keys ≡ firsts text_eq [] names.now) }
{
    let mut set = IndexSet::new(alloc);
    for name in names {
        set.insert(name.copy(alloc)?)?;
    }
    Ok(set)
}
