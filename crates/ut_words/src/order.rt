use kconf_entries::Var;
use ut_base::Name;
use ut_logic::Sequence;

/// What a run does.
#[derive(Clone, Copy, Debug)]
pub enum Job {
    /// Which blocks no configuration turns on, and which none turns off.
    Dead,

    /// Whether a report is right.
    Check,

    /// Configurations that together turn on each block that can be on.
    Coverage,

    /// A configuration that fits a traced system.
    Tailor,

    /// The Kconfig texts in the columns of RSF.
    Dumpconf,

    /// The rules of the Kconfig texts as a model text.
    Model,

    /// The conditions under which the build takes each source.
    Golem,

    /// The total of a generated tree and source.
    Generate,
}

/// How job coverage chooses its configurations.
#[derive(Clone, Copy, Debug)]
pub enum Style {
    /// One block a configuration.
    Simple,

    /// As many further blocks in each as fit in order.
    Min,
}

/// Why words give no order. The kinds are tested in this order. This project's rule.
#[derive(Clone, Copy, Debug)]
pub enum UsageKind {
    /// An unknown option, an option twice, a flag with a value, or an option without its value.
    Words,

    /// No job of this name, or none that is built yet.
    Job,

    /// A value that is no number, or a number past its bounds.
    Number,

    /// A value that is no style.
    Style,

    /// A value that isn't a list of `NAME=VALUE` items, or that has a name twice.
    Var,

    /// An option or a file that the job needs is missing, or more than one of the texts that it reads first is given.
    Needs,

    /// A text that is no file's name, a source that begins with a space, or a source twice.
    File,
}

/// What the words order. An option that the job doesn't use is kept too.
#[derive(Drop)]
pub struct Order {
    pub job: Job,

    /// The model text of `-m`.
    pub model: Option<Name>,

    /// The number of workers of `-t`, from 1 to 64; 1 where it isn't given.
    pub workers: u32,

    pub kconfig: Option<Name>,
    pub rsf: Option<Name>,
    pub kbuild: Option<Name>,

    /// The values for macros of `--var`, no name twice.
    pub vars: Sequence<Var>,

    /// The most steps of a search; 4,000,000 where it isn't given.
    pub steps: u64,

    pub evidence: bool,
    pub report: Option<Name>,
    pub trace: Option<Name>,
    pub white: Option<Name>,
    pub black: Option<Name>,
    pub style: Style,

    /// The number of symbols of a generated tree, from 1 to 10,000.
    pub size: Option<u32>,

    /// The sources in order, none twice.
    pub files: Sequence<Name>,
}
