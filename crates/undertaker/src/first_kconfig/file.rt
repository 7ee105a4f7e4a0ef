ghost use Rattle.std.specs.Prelude.{◌≡◌, IfSome};
ghost use Rattle.std.specs.FinMap.{get};
ghost use Rattle.ut_base.specs.Outside.{HasCause};
ghost use Rattle.undertaker.specs.FirstKconfig.File.{TreeFrom, TreeWithin, IsMissing, IsReadFault, IsTooLong, Refuses, Names};

use super::bad::KconfigBad;
use super::form::first_entries;
use crate::first_bad::FirstBad;
use kconf_entries::Entries;
use std::alloc::Global;
use ut_base::{Files, Limit, Meter, Name, TakeBad, take};

/// Reads the root text, which is of the first form: a list of at most 4,096 entries, each of them the line
/// `config NAME`, the line `bool "TEXT"` after a tab, and lines `depends on NAME && NAME ..` after a tab.
///
/// A NAME is a capital letter followed by letters, digits and `_`; each is declared once, and a dependency
/// names an earlier entry. TEXT holds no `"`, `'`, `\` or `$`. The prompt's full condition is the entry's
/// dependency.
///
/// Errors: `NotYet` names the first line with which the text cannot be continued to the form, or the last
/// `config` line where the text ends after it; `Missing` and `ReadFault` come where the file was not there or
/// could not be read, `TooLarge` where it or all files are too long, `Oom` where there is no memory. The meter
/// has then taken the file's bytes if they were read.
pub fn first_tree<F: Files>(
    alloc: Global,
    files: &mut F,
    root: &Name,
    meter: &mut Meter,
) -> Result<Entries, KconfigBad>
    ensures told { IfSome (F.held files.old) (λ m. TreeFrom (get m root.now) root.now meter.old result) }
    ensures same { F.held files.new ≡ F.held files.old }

    // What the answer says of the bytes that were read, also where the files don't tell what they hold.
    ensures within { TreeWithin root.now meter.old meter.new result }

    // Each answer of the files has its cause in this call.
    ensures read_fault { HasCause (F.faults files.old) (F.faults files.new) (IsReadFault result) }
    ensures missing { HasCause (F.missing files.old) (F.missing files.new) (IsMissing result) }
    ensures long { HasCause (F.long files.old) (F.long files.new) (IsTooLong result) }
{
    match take(alloc, files, root, meter) {
        Ok(bytes) => match first_entries(alloc, &bytes) {
            Ok(entries) => Ok(entries),
            Err(bad) => Err(not_yet(alloc, root, bad)),
        },
        Err(bad) => Err(refused(alloc, root, bad)),
    }
}

/// The refusal of a text that is not of the form.
fn not_yet(alloc: Global, root: &Name, bad: FirstBad) -> KconfigBad
    ensures { Names root.now bad result }
{
    match bad {
        FirstBad::NotYet { line } => match root.copy(alloc) {
            Ok(file) => KconfigBad::NotYet { file, line },
            Err(_) => KconfigBad::Oom,
        },
        FirstBad::Oom => KconfigBad::Oom,
    }
}

/// The refusal of a file that was not taken.
fn refused(alloc: Global, root: &Name, bad: TakeBad) -> KconfigBad
    ensures { Refuses root.now bad result }
{
    match bad {
        TakeBad::Missing => match root.copy(alloc) {
            Ok(file) => KconfigBad::Missing { file },
            Err(_) => KconfigBad::Oom,
        },
        TakeBad::Fault => match root.copy(alloc) {
            Ok(file) => KconfigBad::ReadFault { file },
            Err(_) => KconfigBad::Oom,
        },
        TakeBad::FileTooLong => KconfigBad::TooLarge {
            what: Limit::FileBytes,
            count: 16_777_217,
        },
        TakeBad::AllTooLong { count } => KconfigBad::TooLarge {
            what: Limit::AllBytes,
            count,
        },
        TakeBad::Oom => KconfigBad::Oom,
    }
}
