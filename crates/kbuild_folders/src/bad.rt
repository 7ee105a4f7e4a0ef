ghost use Rattle.kbuild_folders.specs.Errors.{kbuild_errors};

use std::alloc::{AllocError, AllocFailed};
use thiserror::Error;
use ut_base::{Limit, Name, ReadError};

/// Why Kbuild texts are not read. Lines are physical lines, counted from 1.
#[derive(Debug, Drop, Error)]
pub enum KbuildBad {
    /// A conditional line without a partner: the lowest such line of this text.
    #[error("line {line}: conditional line without a partner")]
    Syntax { file: Name, line: u32 },

    /// There is no such file. For a folder neither of its two texts exists, and this is the second, its `Makefile`.
    #[error("missing")]
    Missing { file: Name },

    /// The file could not be read.
    #[error("read fault")]
    ReadFault { file: Name },

    /// The texts have more bytes than a limit allows, and `count` is how many; or some folder or object has more than
    /// 1,024 paths, and `count` is 1,025.
    #[error("limit: {count}")]
    TooLarge { what: Limit, count: u64 },

    /// There was no memory. This may come at any time.
    #[error("memory")]
    Oom,
}

impl ReadError for KbuildBad {
    ghost errors = { kbuild_errors };

    fn missing(file: Name) -> KbuildBad {
        KbuildBad::Missing { file }
    }

    fn fault(file: Name) -> KbuildBad {
        KbuildBad::ReadFault { file }
    }

    fn too_large(what: Limit, count: u64) -> KbuildBad {
        KbuildBad::TooLarge { what, count }
    }

    fn memory() -> KbuildBad {
        KbuildBad::Oom
    }
}

impl From<AllocError> for KbuildBad {
    ghost use Rattle.std.specs.Prelude.{◌≡◌};
    ghost use Rattle.kbuild_folders.specs.declared.bad.KbuildBad.TheVariants.{Oom};

    ghost from_gives = { λ _ e. e ≡ Oom };

    fn from(_e: AllocError) -> KbuildBad {
        KbuildBad::Oom
    }
}

impl<T: Drop> From<AllocFailed<T>> for KbuildBad {
    ghost use Rattle.std.specs.Prelude.{◌≡◌};
    ghost use Rattle.kbuild_folders.specs.declared.bad.KbuildBad.TheVariants.{Oom};

    ghost from_gives = { λ _ e. e ≡ Oom };

    fn from(_e: AllocFailed<T>) -> KbuildBad {
        KbuildBad::Oom
    }
}
