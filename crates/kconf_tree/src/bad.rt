use std::alloc::{AllocError, AllocFailed};
use thiserror::Error;
use ut_base::Limit;
use ut_logic::{Node, Sequence};

/// Why entries give no tree. A limit comes before a cycle.
#[derive(Debug, Drop, Error)]
pub enum TreeBad {
    /// More symbols, members of one choice or defaults of one symbol than the limit allows; `count` is
    /// how many. Symbols come first, then the members of the choices in order, then the defaults of the
    /// symbols in order.
    #[error("limit: {count}")]
    TooMany { what: Limit, count: u64 },
    /// Within the limits, symbols and choices can't be ordered so that each stands after all that it
    /// refers to. `cycle` begins and ends with the first node on a cycle, and each refers to the next.
    #[error("recursive")]
    Recursive { cycle: Sequence<Node> },
    /// Out of memory.
    #[error("memory")]
    Oom,
}

impl From<AllocError> for TreeBad {
    ghost use Rattle.std.specs.Prelude.{◌≡◌};
    ghost use Rattle.kconf_tree.specs.declared.bad.TreeBad.TheVariants.{Oom};

    ghost from_gives = { λ _ e. e ≡ Oom };

    fn from(_e: AllocError) -> TreeBad {
        TreeBad::Oom
    }
}

impl<T: Drop> From<AllocFailed<T>> for TreeBad {
    ghost use Rattle.std.specs.Prelude.{◌≡◌};
    ghost use Rattle.kconf_tree.specs.declared.bad.TreeBad.TheVariants.{Oom};

    ghost from_gives = { λ _ e. e ≡ Oom };

    fn from(_e: AllocFailed<T>) -> TreeBad {
        TreeBad::Oom
    }
}
