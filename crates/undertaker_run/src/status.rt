ghost use Rattle.std.specs.Prelude.{◌≡◌};
ghost use Rattle.undertaker_run.specs.Status.{code_of};

/// How a run ended.
#[derive(Clone, Copy, Debug, PartialEq, Eq)]
pub enum Status {
    /// The whole text was written.
    Well,

    /// The words are not of the form that is read.
    Usage,

    /// A text other than a C source is not in its grammar.
    Refused,

    /// There is no such file.
    Missing,

    /// A file could not be read.
    ReadFault,

    /// The output could not be written.
    WriteFault,

    /// There was no memory. It may come at any time before the first write.
    Memory,

    /// A limit is passed.
    Limit,

    /// A report is not right.
    Wrong,
}

impl Status {
    /// The exit status of the program.
    pub fn code(&self) -> u8
        ensures { result ≡ code_of self.now }
    {
        match self {
            Status::Well => 0,
            Status::Usage => 2,
            Status::Refused => 3,
            Status::Missing => 4,
            Status::ReadFault => 5,
            Status::WriteFault => 6,
            Status::Memory => 7,
            Status::Limit => 8,
            Status::Wrong => 9,
        }
    }
}
