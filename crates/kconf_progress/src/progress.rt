ghost use Rattle.std.specs.Prelude.{◌≡◌, ◌<◌, ◌^◌, [], IfOk, length};
ghost use Rattle.kconf_statements.specs.EntryLines.{Before};
ghost use Rattle.kconf_statements.specs.Entries.{entries_of};
ghost use Rattle.kconf_progress.specs.Progress.{Stands};
ghost use Rattle.kconf_progress.specs.Kept as spec;

mod adding;
mod asking;
mod attributes;
mod choice_attributes;
mod choices;
mod ends;
mod entries;

use crate::kinds::Known;
use crate::open_entries::OpenEntry;
use crate::openers::OpenLine;
use indexmap::{IndexMap, IndexSet};
use kconf_entries::{ChoiceEntry, ConfigEntry, Entries};
use std::alloc::{AllocError, Global};
use std::marker::Model;
use ut_logic::{Sequence, Text};

/// What the lines so far say: the ended entries, the entry that is being read, the enclosing lines, and what is known of
/// each symbol.
#[derive(Drop)]
pub struct Progress {
    configs: Vec<ConfigEntry>,
    choices: Vec<ChoiceEntry>,
    entry: OpenEntry,
    /// From the outermost, `source` lines among them.
    openers: Vec<OpenLine>,
    /// How many of these are menus, ifs and choices.
    open_count: usize,
    symbols: IndexMap<Text, Known>,
    choice_names: IndexSet<Text>,
    /// The number of the choice that encloses what follows.
    choice: Option<u32>,
}

impl Model for Progress {
    ghost use Rattle.std.specs.Prelude.{◌≤◌, length};
    ghost use Rattle.std.specs.Coded.{codes};
    ghost use Rattle.kconf_entries.specs.contracts.expr.Expr as e;
    ghost use Rattle.kconf_progress.specs.Kept as model;

    ghost Value = { model.Kept };

    ghost coded = { Prim.hlevel (codes, e.the_row.coded) };

    ghost view = { λ p. record {
      configs = p.configs.items;
      choices = p.choices.items;
      entry = p.entry;
      openers = p.openers.items;
      open_count = p.open_count;
      symbols = p.symbols.entries;
      choice_names = p.choice_names.keys;
      choice = p.choice;
    } };
}

impl Progress {
    /// Before the first line.
    pub fn new(alloc: Global) -> Progress
        ensures { Stands [] result }
    {
        Progress::at_start(alloc)
    }

    /// Nothing was read.
    fn at_start(alloc: Global) -> Progress
        ensures { result ≡ spec.at_start }
    {
        Progress {
            configs: Vec::new(alloc),
            choices: Vec::new(alloc),
            entry: OpenEntry::Nothing,
            openers: Vec::new(alloc),
            open_count: 0,
            symbols: IndexMap::new(alloc),
            choice_names: IndexSet::new(alloc),
            choice: None,
        }
    }

    /// The entries of all lines.
    pub fn finish(mut self, alloc: Global) -> Result<Entries, AllocError>
        ensures entries { IfOk result (λ e. (before : Before) → Stands before self → e ≡ entries_of before) }
        ensures numbered { IfOk result (λ e. length e.choices < 2 ^ 32) }
    {
        self.end_entry(alloc)?;
        // There are fewer choices than bytes, so their numbers always fit.
        if self.choices.len() > u32::MAX as usize {
            return Err(AllocError);
        }
        Ok(self.into_entries())
    }

    /// The ended entries.
    fn into_entries(self) -> Entries
        ensures configs { result.configs ≡ self.configs }
        ensures choices { result.choices ≡ self.choices }
    {
        let Progress {
            configs,
            choices,
            ..
        } = self;
        Entries {
            configs: Sequence::from_vec(configs),
            choices: Sequence::from_vec(choices),
        }
    }
}
