ghost use Rattle.std.specs.Prelude.{◌≡◌, IfOk};
ghost use Rattle.ut_base.specs.Plans.{plan};
ghost use Rattle.ut_base.specs.Reading.{Reads, stand};
ghost use Rattle.kconf_statements.specs.EntryLines.{Before};
ghost use Rattle.kconf_progress.specs.Progress.{Stands};
ghost use Rattle.kconf_texts.specs.Errors.{kconf_errors};
ghost use Rattle.kconf_texts.specs.Formed.{AreFormed};
ghost use Rattle.kconf_texts.specs.Texts.{tree_plan};
ghost use Rattle.kconf_parse.specs.Reading as inner;

use crate::line::{Setting, read_line, refusal};
use kconf_cut::Values;
use kconf_entries::{Entries, Var};
use kconf_lines::LineCursor;
use kconf_progress::Progress;
use kconf_texts::KconfBad;
use kconf_words::{LineBad, SyntaxKind};
use std::alloc::Global;
use ut_base::{Files, Limit, Meter, Name, want};

/// The most `source` lines that lead to one text.
const MOST_SOURCED: usize = 64;

/// At the end of a text each entry in it has its end word.
fn end_text(alloc: Global, progress: &Progress, file: &Name) -> Result<(), KconfBad>
    ensures { (before : Before) → Stands before progress.now → inner.EndsText file.now before result }
{
    match progress.unclosed() {
        Some(line) => {
            let bad = LineBad::Syntax(SyntaxKind::Unclosed);
            Err(refusal(alloc, file, line, bad))
        }
        None => Ok(()),
    }
}

/// Passes the help text that stands here, if one does.
fn pass_help(cursor: &mut LineCursor<'_>, is_help: bool)
    ensures { cursor.new ≡ inner.after_help_if is_help cursor.old }
{
    if is_help {
        cursor.skip_help();
    }
}

/// Reads the text of a file, in which so many more `source` lines may stand one in the text of another.
fn read_text<F: Files>(
    alloc: Global,
    files: &mut F,
    meter: &mut Meter,
    setting: Setting<'_>,
    progress: &mut Progress,
    file: &Name,
    room: usize,
) -> Result<(), KconfBad>
    ensures { (before : Before) → Stands before progress.old
        → inner.ReadsText setting.entry.values.now setting.entry.root.now room file.now before (stand F.Files files.old) (stand F.Files files.new) meter.old meter.new result progress.new }
{
    let content = want::<F, KconfBad>(alloc, files, file, meter)?;
    let mut cursor = LineCursor::new(content.bytes());
    'lines: while let Some(line) = cursor.next_line(alloc)? {
        let follows = match read_line(alloc, setting, &line, progress) {
            Ok(follows) => follows,
            Err(bad) => return Err(refusal(alloc, file, line.number, bad)),
        };
        pass_help(&mut cursor, follows.is_help);
        match &follows.text {
            Some(target) => {
                if room == 0 {
                    let bad = LineBad::Depth(Limit::SourceDepth);
                    return Err(refusal(alloc, file, line.number, bad));
                }
                read_text(alloc, files, meter, setting, progress, target, room - 1)?;
                progress.sourced(alloc)?;
            }
            None => {}
        }
    }
    end_text(alloc, progress, file)
}

/// The entries of the text with this name, and of those that it sources, where macros have these values.
fn read_entries<F: Files>(
    alloc: Global,
    files: &mut F,
    root: &Name,
    values: &Values<'_>,
    meter: &mut Meter,
) -> Result<Entries, KconfBad>
    ensures reads { Reads (plan kconf_errors (tree_plan values.now root.now)) (stand F.Files files.old) (stand F.Files files.new) meter.old meter.new result }
    ensures formed { IfOk result AreFormed }
{
    let setting = Setting { root, values };
    let mut progress = Progress::new(alloc);
    read_text(
        alloc,
        files,
        meter,
        setting,
        &mut progress,
        root,
        MOST_SOURCED,
    )?;
    let entries = progress.finish(alloc)?;
    Ok(entries)
}

/// The entries of the text with this name, and of each text that it sources in the place of the `source` line.
///
/// Paths in the texts are read beside the root's name. The first refusal in reading order is answered: a line of a text,
/// a file that is not there, is too long or could not be read, or want of memory.
pub fn read_tree<F: Files>(
    alloc: Global,
    files: &mut F,
    root: &Name,
    vars: &[Var],
    meter: &mut Meter,
) -> Result<Entries, KconfBad>
    ensures reads { Reads (plan kconf_errors (tree_plan vars.now root.now)) (stand F.Files files.old) (stand F.Files files.new) meter.old meter.new result }
    ensures formed { IfOk result AreFormed }
{
    let values = Values::new(alloc, vars)?;
    read_entries(alloc, files, root, &values, meter)
}
