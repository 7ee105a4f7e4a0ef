ghost use Rattle.std.specs.Prelude.{◌≡◌, ℕ, ◌≤◌, true, false, length, Err, IfOk, MatchResult, OnOk};
ghost use Rattle.ut_words.specs.Lists.{IsFirstOutside, IsList, TakesLine, nothing_kept, with_line};
ghost use Rattle.ut_words.specs.Lists as spec;

use crate::distinct::is_new;
use crate::list_lines::{is_skipped, wish_of};
use crate::wishes::{ListKind, ListWish, WishList};
use indexmap::IndexSet;
use line_texts::split_line;
use std::alloc::{AllocError, Global};
use std::marker::Model;
use std::str;
use thiserror::Error;
use ut_base::Name;
use ut_logic::Text;

/// Why a text is no list.
#[derive(Clone, Copy, Debug, PartialEq, Eq, Error)]
pub enum ListBad {
    /// The first line that isn't of the list, counted from 1.
    #[error("line {number} is no line of a list")]
    Line { number: u32 },

    /// Memory ran out.
    #[error("out of memory")]
    Oom,
}

impl From<AllocError> for ListBad {
    ghost use Rattle.std.specs.Prelude.{◌≡◌};
    ghost use Rattle.ut_words.specs.declared.lists.ListBad.TheVariants.{Oom};

    ghost from_gives = { λ _ bad. bad ≡ Oom };

    fn from(_: AllocError) -> ListBad {
        ListBad::Oom
    }
}

/// The lines of a list that count, and their wishes. After an error it may hold a line without its wish.
#[derive(Drop)]
struct KeptLines {
    lines: IndexSet<Text>,
    wishes: Vec<ListWish>,
}

impl Model for KeptLines {
    ghost use Rattle.ut_words.specs.Lists.{Kept};

    ghost Value = { Kept };

    ghost view = { λ k. record { lines = k.lines.keys; wishes = k.wishes.items } };
}

impl KeptLines {
    fn new(alloc: Global) -> KeptLines
        ensures { result ≡ nothing_kept }
    {
        KeptLines {
            lines: IndexSet::new(alloc),
            wishes: Vec::new(alloc),
        }
    }

    /// Keeps a line with its wish, unless it repeats an earlier one. The only error is want of memory.
    fn keep(&mut self, alloc: Global, line: &str, wish: ListWish) -> Result<(), AllocError>
        ensures { OnOk result (self.new ≡ with_line line.now wish self.old) }
    {
        if !is_new(alloc, &mut self.lines, line)? {
            return Ok(());
        }
        self.wishes.push(wish)?;
        Ok(())
    }

    /// Takes a line of a list of this kind; false where it isn't one. The only error is want of memory.
    fn take(&mut self, alloc: Global, kind: ListKind, line: &[u8]) -> Result<bool, AllocError>
        ensures taken { IfOk result (λ taken. taken ≡ true → TakesLine kind (spec.is_skipped line.now) self.old line.now self.new) }
        ensures other { IfOk result (λ taken. taken ≡ false → (next : _) → ¬ TakesLine kind (spec.is_skipped line.now) self.old line.now next) }
    {
        if is_skipped(line) {
            return Ok(true);
        }
        let Ok(text) = str::from_utf8(line) else {
            return Ok(false);
        };
        let Some(wish) = wish_of(alloc, kind, line)? else {
            return Ok(false);
        };
        self.keep(alloc, text, wish)?;
        Ok(true)
    }
}

fn wishes_in(alloc: Global, kind: ListKind, bytes: &[u8]) -> Result<WishList, ListBad>
    requires { length bytes.now ≤ 16777216 }
    ensures reads { IfOk result (IsList kind bytes.now) }
    ensures line { (number : ℕ) → result ≡ Err (ListBad.Line number) → IsFirstOutside kind bytes.now number }
{
    let mut rest = bytes;
    let mut number: u32 = 1;
    let mut kept = KeptLines::new(alloc);
    while !rest.is_empty() {
        let (line, after) = split_line(rest);
        if !kept.take(alloc, kind, line)? {
            return Err(ListBad::Line { number });
        }
        rest = after;
        number += 1;
    }
    Ok(WishList::from_vec(kept.wishes))
}

/// The wishes of a list of this kind in the order of its lines.
///
/// The files are those that the words name: a list of another kind than these three may speak of them. `Line` names
/// the first line that isn't of the list. This project's rule.
pub fn read_list(
    alloc: Global,
    kind: ListKind,
    _files: &[Name],
    bytes: &[u8],
) -> Result<WishList, ListBad>
    requires { length bytes.now ≤ 16777216 }
    ensures reads { IfOk result (IsList kind bytes.now) }

    // So a list is never refused, and has one reading.
    ensures only { (wishes : _) → IsList kind bytes.now wishes →
        MatchResult result (λ read. read ≡ wishes) (λ bad. bad ≡ ListBad.Oom) }
    ensures line { (number : ℕ) → result ≡ Err (ListBad.Line number) → IsFirstOutside kind bytes.now number }
{
    let wishes = wishes_in(alloc, kind, bytes)?;
    Ok(wishes)
}
