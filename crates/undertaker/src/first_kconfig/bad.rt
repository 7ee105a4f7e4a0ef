use thiserror::Error;
use ut_base::{Limit, Name};

/// Why the Kconfig text is not read. Lines are physical lines, counted from 1.
#[derive(Debug, Drop, Error)]
pub enum KconfigBad {
    /// The text is not of the first form, and this line is named.
    #[error("line {line}: not yet")]
    NotYet { file: Name, line: u32 },
    /// There is no such file.
    #[error("missing")]
    Missing { file: Name },
    /// The file could not be read.
    #[error("read fault")]
    ReadFault { file: Name },
    /// The text has more bytes than this limit allows; `count` is how many.
    #[error("limit: {count}")]
    TooLarge { what: Limit, count: u64 },
    /// There is not enough memory.
    #[error("memory")]
    Oom,
}
