use kconf_words::SyntaxKind;
use std::alloc::{AllocError, AllocFailed};
use thiserror::Error;
use ut_base::{Limit, Name, ReadError};

/// Why Kconfig texts are not read. Lines are physical lines, counted from 1.
#[derive(Debug, Drop, Error)]
pub enum KconfBad {
    /// The line has this fault.
    #[error("line {line}: syntax")]
    Syntax {
        file: Name,
        line: u32,
        kind: SyntaxKind,
    },
    /// There is no such file.
    #[error("missing")]
    Missing {
        file: Name,
    },
    /// The file could not be read.
    #[error("read fault")]
    ReadFault {
        file: Name,
    },
    /// A macro call where its value is wanted.
    #[error("line {line}: macro")]
    Macro {
        file: Name,
        line: u32,
    },
    /// The line passes a limit on nesting.
    #[error("line {line}: limit")]
    Depth {
        file: Name,
        line: u32,
        what: Limit,
    },
    /// The texts have more bytes than this limit allows; `count` is how many.
    #[error("limit: {count}")]
    TooLarge {
        what: Limit,
        count: u64,
    },
    /// There is not enough memory.
    #[error("memory")]
    Oom,
}

impl From<AllocError> for KconfBad {
    ghost use Rattle.std.specs.Prelude.{◌≡◌};
    ghost use Rattle.kconf_texts.specs.declared.bad.KconfBad.TheVariants.{Oom};

    ghost from_gives = { λ _ e. e ≡ Oom };

    fn from(_e: AllocError) -> KconfBad {
        KconfBad::Oom
    }
}

impl<T: Drop> From<AllocFailed<T>> for KconfBad {
    ghost use Rattle.std.specs.Prelude.{◌≡◌};
    ghost use Rattle.kconf_texts.specs.declared.bad.KconfBad.TheVariants.{Oom};

    ghost from_gives = { λ _ e. e ≡ Oom };

    fn from(_e: AllocFailed<T>) -> KconfBad {
        KconfBad::Oom
    }
}

impl ReadError for KconfBad {
    ghost use Rattle.kconf_texts.specs.Errors.{kconf_errors};

    ghost errors = { kconf_errors };

    fn missing(file: Name) -> KconfBad {
        KconfBad::Missing { file }
    }

    fn fault(file: Name) -> KconfBad {
        KconfBad::ReadFault { file }
    }

    fn too_large(what: Limit, count: u64) -> KconfBad {
        KconfBad::TooLarge { what, count }
    }

    fn memory() -> KconfBad {
        KconfBad::Oom
    }
}
