use std::alloc::{AllocError, AllocFailed};
use ut_base::Limit;

/// What is wrong in a line of a Kconfig text.
#[derive(Clone, Copy, Debug, PartialEq, Eq)]
pub enum SyntaxKind {
    /// A quoted word without its end.
    Quote,
    /// A macro call without its end.
    Bracket,
    /// The first word is none that begins a statement.
    Word,
    /// An attribute that the entry before it does not take.
    Attribute,
    /// No expression, text or value where one is wanted.
    Expression,
    /// No name where one is wanted.
    Named,
    /// Words are left over.
    Extra,
    /// An end word without its opener.
    End,
    /// An opener without its end word.
    Unclosed,
    /// An entry that a choice does not take, a member of two choices, or a choice's name used twice.
    Choice,
}

/// What is wrong with a line, without its place.
#[derive(Clone, Copy, Debug)]
pub enum LineBad {
    /// The line has this fault.
    Syntax(SyntaxKind),
    /// A macro call where its value is wanted.
    Macro,
    /// The line passes this limit on nesting.
    Depth(Limit),
    /// There is not enough memory.
    Oom,
}

impl From<AllocError> for LineBad {
    ghost use Rattle.std.specs.Prelude.{◌≡◌};
    ghost use Rattle.kconf_words.specs.declared.line_bad.LineBad.TheVariants.{Oom};

    ghost from_gives = { λ _ e. e ≡ Oom };

    fn from(_e: AllocError) -> LineBad {
        LineBad::Oom
    }
}

impl<T: Drop> From<AllocFailed<T>> for LineBad {
    ghost use Rattle.std.specs.Prelude.{◌≡◌};
    ghost use Rattle.kconf_words.specs.declared.line_bad.LineBad.TheVariants.{Oom};

    ghost from_gives = { λ _ e. e ≡ Oom };

    fn from(_e: AllocFailed<T>) -> LineBad {
        LineBad::Oom
    }
}
