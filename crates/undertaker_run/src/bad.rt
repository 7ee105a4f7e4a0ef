ghost use Rattle.std.specs.Prelude.{◌≡◌};
ghost use Rattle.undertaker_run.specs.Errors.{bad_of_kbuild};
ghost use Rattle.undertaker_run.specs.Refusals.{kind_word, status_of};

use crate::status::Status;
use kbuild_cond::KbuildBad;
use std::alloc::AllocError;
use ut_base::{Limit, Name};
use ut_words::UsageKind;

/// The grammar that a line of a text isn't of.
#[derive(Clone, Copy)]
pub enum LineKind {
    /// A conditional line of a Kbuild text has no partner.
    Kbuild,
}

impl LineKind {
    /// The word of an error line.
    pub(crate) fn word(self) -> &'static str
        ensures { result.now ≡ kind_word self }
    {
        match self {
            LineKind::Kbuild => "kbuild",
        }
    }
}

/// Why a run ends before its text is written.
#[derive(Drop)]
pub enum Bad {
    /// The words aren't of the form of the manual, and this is the first test that they don't pass.
    Usage(UsageKind),

    /// This line of a text, counted from 1, isn't of the text's grammar.
    Line {
        file: Name,
        line: u32,
        kind: LineKind,
    },

    /// There is no such file. For a folder neither of its two texts exists, and this is the second.
    Missing {
        file: Name,
    },

    /// The read of this file failed.
    ReadFault {
        file: Name,
    },

    /// There are so many of what a limit counts.
    TooLarge {
        what: Limit,
        count: u64,
    },

    /// There was no memory. This may come at any time before the first write.
    Oom,
}

impl Bad {
    /// The status of a run that ends so.
    pub(crate) fn status(&self) -> Status
        ensures { result ≡ status_of self.now }
    {
        match self {
            Bad::Usage(_) => Status::Usage,
            Bad::Line { .. } => Status::Refused,
            Bad::Missing { .. } => Status::Missing,
            Bad::ReadFault { .. } => Status::ReadFault,
            Bad::TooLarge { .. } => Status::Limit,
            Bad::Oom => Status::Memory,
        }
    }
}

impl From<AllocError> for Bad {
    ghost use Rattle.std.specs.Prelude.{◌≡◌};
    ghost use Rattle.undertaker_run.specs.declared.bad.Bad.TheVariants.{Oom};

    ghost from_gives = { λ _ bad. bad ≡ Oom };

    fn from(_: AllocError) -> Bad {
        Bad::Oom
    }
}

impl From<KbuildBad> for Bad {
    ghost use Rattle.std.specs.Prelude.{◌≡◌};
    ghost use Rattle.undertaker_run.specs.Errors.{bad_of_kbuild};

    ghost from_gives = { λ kbuild bad. bad ≡ bad_of_kbuild kbuild };

    fn from(bad: KbuildBad) -> Bad {
        match bad {
            KbuildBad::Syntax { file, line } => Bad::Line {
                file,
                line,
                kind: LineKind::Kbuild,
            },
            KbuildBad::Missing { file } => Bad::Missing { file },
            KbuildBad::ReadFault { file } => Bad::ReadFault { file },
            KbuildBad::TooLarge { what, count } => Bad::TooLarge { what, count },
            KbuildBad::Oom => Bad::Oom,
        }
    }
}
