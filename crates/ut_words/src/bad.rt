use crate::order::UsageKind;
use std::alloc::AllocError;
use thiserror::Error;

/// Why words give no order.
#[derive(Clone, Copy, Debug, Error)]
pub enum WordsBad {
    /// The words aren't of the form that the manual gives; the kind is that of the first test that they don't pass.
    #[error("the words are refused")]
    Usage(UsageKind),

    /// Memory ran out.
    #[error("out of memory")]
    Oom,
}

impl From<AllocError> for WordsBad {
    ghost use Rattle.std.specs.Prelude.{◌≡◌};
    ghost use Rattle.ut_words.specs.declared.bad.WordsBad.TheVariants.{Oom};

    ghost from_gives = { λ _ e. e ≡ Oom };

    fn from(_error: AllocError) -> WordsBad {
        WordsBad::Oom
    }
}
