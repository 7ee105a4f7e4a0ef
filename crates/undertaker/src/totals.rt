ghost use Rattle.std.specs.Prelude.{◌≡◌, ◌<◌, ◌-◌, ◌^◌, IfOk};
ghost use Rattle.ut_report.specs.Lines.{counted, total_line, totals_of};
ghost use Rattle.undertaker.specs.Lines.{ended};

use crate::lines::Line;
use crate::report::add_count;
use std::alloc::{AllocError, Global};
use std::marker::Model;
use ut_case::Word;

/// How many blocks there are, and how many of each word.
#[derive(Drop)]
pub(crate) struct Totals {
    blocks: u64,
    dead: u64,
    undead: u64,
    live: u64,
    undecided: u64,
}

impl Model for Totals {
    ghost use Rattle.std.specs.Prelude.{◌≤◌};
    ghost use Rattle.ut_report.specs.Lines as spec;

    ghost Value = { spec.Totals };

    ghost view = { λ t. record { blocks = t.blocks; dead = t.dead; undead = t.undead; live = t.live; undecided = t.undecided } };

    ghost invariant = { λ t. (t.dead ≤ t.blocks) × (t.undead ≤ t.blocks) × (t.live ≤ t.blocks) × (t.undecided ≤ t.blocks) };
}

impl Totals {
    /// The counts of words.
    pub(crate) fn of_words(words: &[Word]) -> Totals
        ensures { result ≡ totals_of words.now }
    {
        let mut totals = Totals {
            blocks: 0,
            dead: 0,
            undead: 0,
            live: 0,
            undecided: 0,
        };
        for word in words {
            totals.add(*word);
        }
        totals
    }

    /// Counts one more block, with its word.
    fn add(&mut self, word: Word)
        requires { self.old.blocks < 2 ^ 64 - 1 }
        ensures { self.new ≡ counted self.old word }
    {
        self.blocks += 1;
        match word {
            Word::Dead(_) => self.dead += 1,
            Word::Undead(_) => self.undead += 1,
            Word::Live => self.live += 1,
            Word::Undecided(_) => self.undecided += 1,
        }
    }

    /// The total line.
    pub(crate) fn line(&self, alloc: Global) -> Result<Line, AllocError>
        ensures { IfOk result (λ l. l ≡ ended (total_line self.now)) }
    {
        let mut text = Vec::new(alloc);
        add_count(&mut text, "blocks ", self.blocks)?;
        add_count(&mut text, " dead ", self.dead)?;
        add_count(&mut text, " undead ", self.undead)?;
        add_count(&mut text, " live ", self.live)?;
        add_count(&mut text, " undecided ", self.undecided)?;
        Line::ended(text)
    }
}
