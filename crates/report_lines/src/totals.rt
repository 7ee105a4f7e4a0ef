ghost use Rattle.std.specs.Prelude.{◌≡◌, ◌<◌, ◌-◌, ◌^◌, ◌∷◌, ◌++◌, [], IfOk, OnOk, length};
ghost use Rattle.ut_report.specs.Lines.{counted, text_of, totals_from, totals_of};
ghost use Rattle.ut_report.specs.Lines as spec;

use crate::numbers::push_count;
use std::alloc::{AllocError, Global};
use std::marker::Model;
use ut_case::Word;

/// How many blocks there are, and how many of each word.
#[derive(Drop)]
pub struct Totals {
    blocks: u64,
    dead: u64,
    undead: u64,
    live: u64,
    undecided: u64,
}

impl Model for Totals {
    ghost use Rattle.std.specs.Prelude.{◌≤◌};
    ghost use Rattle.ut_report.specs.Lines as spec;

    ghost Value = { spec.Totals };

    ghost view = { λ t. record { blocks = t.blocks; dead = t.dead; undead = t.undead; live = t.live; undecided = t.undecided } };

    ghost invariant = { λ t. (t.dead ≤ t.blocks) × (t.undead ≤ t.blocks) × (t.live ≤ t.blocks) × (t.undecided ≤ t.blocks) };
}

impl Totals {
    /// The counts of words.
    pub fn of_words(words: &[Word]) -> Totals
        ensures { result ≡ totals_of words.now }
    {
        let mut totals = Totals {
            blocks: 0,
            dead: 0,
            undead: 0,
            live: 0,
            undecided: 0,
        };
        for word in words {
            totals.add(*word);
        }
        totals
    }

    /// Counts one more block, with its word.
    fn add(&mut self, word: Word)
        requires { self.old.blocks < 2 ^ 64 - 1 }
        ensures { self.new ≡ counted self.old word }
    {
        self.blocks += 1;
        match word {
            Word::Dead(_) => self.dead += 1,
            Word::Undead(_) => self.undead += 1,
            Word::Live => self.live += 1,
            Word::Undecided(_) => self.undecided += 1,
        }
    }

    /// Appends the total line without a newline.
    fn push_counts(&self, text: &mut Vec<u8>) -> Result<(), AllocError>
        ensures { OnOk result (text.new.items ≡ text.old.items ++ spec.total_line self.now) }
    {
        push_count(text, "blocks ", self.blocks)?;
        push_count(text, " dead ", self.dead)?;
        push_count(text, " undead ", self.undead)?;
        push_count(text, " live ", self.live)?;
        push_count(text, " undecided ", self.undecided)
    }

    /// Appends the total line with its newline.
    pub fn push_line(&self, text: &mut Vec<u8>) -> Result<(), AllocError>
        ensures { OnOk result (text.new.items ≡ text.old.items ++ text_of (spec.total_line self.now ∷ [])) }
    {
        self.push_counts(text)?;
        text.extend_from_slice(b"\n")
    }
}

/// The total line of a report, with its newline: how many blocks have these words, and how many each of them.
///
/// The only error is want of memory. This project's rule.
pub fn total_line(alloc: Global, words: &[Word]) -> Result<Vec<u8>, AllocError>
    ensures { IfOk result (λ text. text.items ≡ text_of (spec.total_line (totals_of words.now) ∷ [])) }
{
    let totals = Totals::of_words(words);
    let mut text = Vec::new(alloc);
    totals.push_line(&mut text)?;
    Ok(text)
}
