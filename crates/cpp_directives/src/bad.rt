use std::alloc::{AllocError, AllocFailed};
use thiserror::Error;

/// Why a source or a condition is refused. Lines are physical lines, counted from 1.
#[derive(Debug, Drop, Clone, Copy, Error)]
pub enum CppBad {
    /// `#elif`, `#elifdef`, `#elifndef`, `#else` or `#endif` where no chain is open.
    #[error("line {line}: unbalanced")]
    Unbalanced { line: u32 },
    /// `#elif`, `#elifdef`, `#elifndef` or `#else` in a chain that has its `#else`.
    #[error("line {line}: else")]
    ElseTwice { line: u32 },
    /// A chain that is opened inside 250 open ones.
    #[error("line {line}: depth")]
    Depth { line: u32 },
    /// The 65,536th block of the source, or the 1,025th group of a chain.
    #[error("line {line}: many")]
    TooMany { line: u32 },
    /// `#ifdef`, `#ifndef`, `#elifdef`, `#elifndef`, `#define` or `#undef` whose next token is no name.
    #[error("line {line}: name")]
    NoName { line: u32 },
    /// A condition that cannot be read.
    #[error("line {line}: condition")]
    Condition { line: u32 },
    /// The text ends with an open chain; the line is that of the innermost one's opener.
    #[error("line {line}: unclosed")]
    Unclosed { line: u32 },
    /// There is not enough memory.
    #[error("memory")]
    Oom,
}

impl From<AllocError> for CppBad {
    ghost use Rattle.std.specs.Prelude.{◌≡◌};
    ghost use Rattle.cpp_directives.specs.declared.bad.CppBad.TheVariants.{Oom};

    ghost from_gives = { λ _ e. e ≡ Oom };

    fn from(_e: AllocError) -> CppBad {
        CppBad::Oom
    }
}

impl<T: Drop> From<AllocFailed<T>> for CppBad {
    ghost use Rattle.std.specs.Prelude.{◌≡◌};
    ghost use Rattle.cpp_directives.specs.declared.bad.CppBad.TheVariants.{Oom};

    ghost from_gives = { λ _ e. e ≡ Oom };

    fn from(_e: AllocFailed<T>) -> CppBad {
        CppBad::Oom
    }
}
