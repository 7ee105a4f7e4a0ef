ghost use Rattle.std.specs.Prelude.{◌≡◌, ℕ, ◌<◌, ◌≤◌, [], length, Err, IfOk};
ghost use Rattle.ut_words.specs.Lists.{most_wishes, wishes_of};

use std::alloc::{AllocError, Global};
use std::marker::Model;
use thiserror::Error;
use ut_base::Name;
use ut_logic::{Sequence, Text};

/// The most wishes of a run.
pub const WISHES: u64 = 65_536;

/// A list of wishes that the words name.
#[derive(Clone, Copy, Debug)]
pub enum ListKind {
    /// Symbols that are to be on.
    White,

    /// Symbols that are to be off.
    Black,

    /// Lines of sources whose blocks are to be on.
    Trace,
}

/// What a line of a list wishes.
#[derive(Debug, Drop)]
pub enum ListWish {
    /// The symbol isn't n.
    On(Text),

    /// The symbol is n.
    Off(Text),

    /// The block that has the line is on. The line is a number from 1 to 999,999,999.
    Traced { file: Name, line: u32 },
}

/// The wishes of one list in the order of its lines, at most 16,777,216, which contracts see as a list.
#[derive(Debug, Drop)]
pub struct WishList {
    wishes: Vec<ListWish>,
}

impl Model for WishList {
    ghost use Rattle.std.specs.Prelude.{◌≤◌, List, length};
    ghost use Rattle.ut_base.specs.Limits.{file_bytes};
    ghost use Rattle.ut_words.specs.declared.wishes.ListWish.{ListWish};

    ghost Value = { List ListWish };

    ghost view = { λ l. l.wishes.items };

    ghost invariant = { λ l. length l.wishes.items ≤ file_bytes };
}

impl WishList {
    /// The list without a wish, as of an option that isn't given.
    pub fn new(alloc: Global) -> WishList
        ensures { result ≡ [] }
    {
        WishList {
            wishes: Vec::new(alloc),
        }
    }

    /// The list of these wishes.
    pub(crate) fn from_vec(wishes: Vec<ListWish>) -> WishList
        requires { length wishes.items ≤ 16777216 }
        ensures { result ≡ wishes.items }
    {
        WishList { wishes }
    }

    fn into_vec(self) -> Vec<ListWish>
        ensures { result.items ≡ self }
    {
        let WishList { wishes } = self;
        wishes
    }

    /// The wishes in order.
    pub fn as_slice(&self) -> &[ListWish]
        ensures { result.now ≡ self.now }
    {
        self.wishes.as_slice()
    }
}

/// Why there are no wishes of a run.
#[derive(Clone, Copy, Debug, PartialEq, Eq, Error)]
pub enum WishesBad {
    /// More wishes than 65,536. The count is that of all.
    #[error("{count} wishes are too many")]
    TooMany { count: u64 },

    /// Memory ran out.
    #[error("out of memory")]
    Oom,
}

impl From<AllocError> for WishesBad {
    ghost use Rattle.std.specs.Prelude.{◌≡◌};
    ghost use Rattle.ut_words.specs.declared.wishes.WishesBad.TheVariants.{Oom};

    ghost from_gives = { λ _ bad. bad ≡ Oom };

    fn from(_: AllocError) -> WishesBad {
        WishesBad::Oom
    }
}

/// The wishes of a run in order: those of the white list, of the black list and of the trace.
pub fn all_wishes(
    white: WishList,
    black: WishList,
    trace: WishList,
) -> Result<Sequence<ListWish>, WishesBad>
    ensures all { IfOk result (λ all. all ≡ wishes_of white black trace) }
    ensures few { IfOk result (λ all. length all ≤ most_wishes) }
    ensures many { (count : ℕ) → result ≡ Err (WishesBad.TooMany count)
        → (count ≡ length (wishes_of white black trace)) × (most_wishes < count) }
{
    let count = count_of(&white) + count_of(&black) + count_of(&trace);
    if count > WISHES {
        return Err(WishesBad::TooMany { count });
    }
    let mut all = white.into_vec();
    let mut black = black.into_vec();
    let mut trace = trace.into_vec();
    all.append(&mut black)?;
    all.append(&mut trace)?;
    Ok(Sequence::from_vec(all))
}

fn count_of(list: &WishList) -> u64
    ensures count { result ≡ length list.now }
    ensures most { result ≤ 16777216 }
{
    list.wishes.len() as u64
}
