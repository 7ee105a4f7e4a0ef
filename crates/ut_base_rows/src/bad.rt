ghost use Rattle.std.specs.Prelude.{◌≡◌};
ghost use Rattle.ut_base_rows.specs.Errors.{folder_errors, job_bad, job_errors};

use ut_base::{Limit, Name, ReadError};

/// Why a folder is refused.
#[derive(Drop)]
pub enum FolderBad {
    /// The text of a folder has no bytes.
    Empty { file: Name },

    /// Neither text of a folder exists.
    Missing { file: Name },

    /// The read of this file failed.
    ReadFault { file: Name },

    /// A limit on bytes is passed.
    TooLarge { what: Limit, count: u64 },

    /// There was no memory.
    Oom,
}

impl ReadError for FolderBad {
    ghost errors = { folder_errors };

    fn missing(file: Name) -> FolderBad {
        FolderBad::Missing { file }
    }

    fn fault(file: Name) -> FolderBad {
        FolderBad::ReadFault { file }
    }

    fn too_large(what: Limit, count: u64) -> FolderBad {
        FolderBad::TooLarge { what, count }
    }

    fn memory() -> FolderBad {
        FolderBad::Oom
    }
}

/// Why a whole job is refused.
#[derive(Drop)]
pub enum JobBad {
    /// A folder is refused for what its text says.
    Folder { file: Name },

    /// No such file exists.
    Missing { file: Name },

    /// The read of this file failed.
    ReadFault { file: Name },

    /// A limit on bytes is passed.
    TooLarge { what: Limit, count: u64 },

    /// There was no memory.
    Oom,
}

impl ReadError for JobBad {
    ghost errors = { job_errors };

    fn missing(file: Name) -> JobBad {
        JobBad::Missing { file }
    }

    fn fault(file: Name) -> JobBad {
        JobBad::ReadFault { file }
    }

    fn too_large(what: Limit, count: u64) -> JobBad {
        JobBad::TooLarge { what, count }
    }

    fn memory() -> JobBad {
        JobBad::Oom
    }
}

impl From<FolderBad> for JobBad {
    ghost use Rattle.std.specs.Prelude.{◌≡◌};
    ghost use Rattle.ut_base_rows.specs.Errors.{job_bad};

    ghost from_gives = { λ folder e. e ≡ job_bad folder };

    fn from(folder: FolderBad) -> JobBad {
        match folder {
            FolderBad::Empty { file } => JobBad::Folder { file },
            FolderBad::Missing { file } => JobBad::Missing { file },
            FolderBad::ReadFault { file } => JobBad::ReadFault { file },
            FolderBad::TooLarge { what, count } => JobBad::TooLarge { what, count },
            FolderBad::Oom => JobBad::Oom,
        }
    }
}
