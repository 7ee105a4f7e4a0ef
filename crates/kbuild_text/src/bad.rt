use std::alloc::{AllocError, AllocFailed};

/// Why a text is not read.
#[derive(Debug, Drop)]
pub enum TextBad {
    /// A conditional line without a partner: the lowest such physical line, counted from 1.
    Line(u32),

    /// There was no memory. This may come at any time.
    Oom,
}

impl From<AllocError> for TextBad {
    ghost use Rattle.std.specs.Prelude.{◌≡◌};
    ghost use Rattle.kbuild_text.specs.declared.bad.TextBad.TheVariants.{Oom};

    ghost from_gives = { λ _ e. e ≡ Oom };

    fn from(_e: AllocError) -> TextBad {
        TextBad::Oom
    }
}

impl<T: Drop> From<AllocFailed<T>> for TextBad {
    ghost use Rattle.std.specs.Prelude.{◌≡◌};
    ghost use Rattle.kbuild_text.specs.declared.bad.TextBad.TheVariants.{Oom};

    ghost from_gives = { λ _ e. e ≡ Oom };

    fn from(_e: AllocFailed<T>) -> TextBad {
        TextBad::Oom
    }
}
