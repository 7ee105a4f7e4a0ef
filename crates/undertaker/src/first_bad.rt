use std::alloc::{AllocError, AllocFailed};
use thiserror::Error;

/// Why a text of the first forms is not read. Lines are physical lines, counted from 1.
#[derive(Debug, Drop, Clone, Copy, Error)]
pub enum FirstBad {
    /// The text is not of the form, and this line is named.
    #[error("line {line}: not yet")]
    NotYet { line: u32 },
    /// There is not enough memory.
    #[error("memory")]
    Oom,
}

impl From<AllocError> for FirstBad {
    ghost use Rattle.std.specs.Prelude.{◌≡◌};
    ghost use Rattle.undertaker.specs.declared.first_bad.FirstBad.TheVariants.{Oom};

    ghost from_gives = { λ _ e. e ≡ Oom };

    fn from(_e: AllocError) -> FirstBad {
        FirstBad::Oom
    }
}

impl<T: Drop> From<AllocFailed<T>> for FirstBad {
    ghost use Rattle.std.specs.Prelude.{◌≡◌};
    ghost use Rattle.undertaker.specs.declared.first_bad.FirstBad.TheVariants.{Oom};

    ghost from_gives = { λ _ e. e ≡ Oom };

    fn from(_e: AllocFailed<T>) -> FirstBad {
        FirstBad::Oom
    }
}
