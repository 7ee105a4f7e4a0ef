ghost use Rattle.std.specs.Prelude.{◌≡◌};
ghost use Rattle.kconf_words.specs.declared.line_bad.LineBad.{LineBad};
ghost use Rattle.kconf_lines.specs.Reading.{text_bytes};
ghost use Rattle.kconf_statements.specs.EntryLines.{Before};
ghost use Rattle.kconf_progress.specs.Progress.{Stands};
ghost use Rattle.kconf_parse.specs.Reading as inner;

use kconf_cut::{Values, words_of};
use kconf_lines::LogicalLine;
use kconf_progress::Progress;
use kconf_statements::says;
use kconf_texts::KconfBad;
use kconf_words::{LineBad, LineWord, is_word};
use std::alloc::Global;
use ut_base::Name;

/// What is the same for each text of a tree: the root text's name, beside which paths are read, and the values of
/// macros.
#[derive(Clone, Copy)]
pub struct Setting<'a> {
    pub root: &'a Name,
    pub values: &'a Values<'a>,
}

/// What follows a line: the text of a file, where it is a `source` line, and a help text, where it begins one.
#[derive(Drop)]
pub struct Follows {
    pub text: Option<Name>,
    pub is_help: bool,
}

/// Whether the words begin a help text.
fn begins_help(words: &[LineWord]) -> bool
    ensures { result ≡ inner.begins_help words.now }
{
    match words {
        [first, ..] => is_word(first, b"help") || is_word(first, b"---help---"),
        [] => false,
    }
}

/// Adds what the words of a line say, and answers what follows it.
fn add_words(
    alloc: Global,
    setting: Setting<'_>,
    number: u32,
    words: &[LineWord],
    progress: &mut Progress,
) -> Result<Follows, LineBad>
    ensures { (before : Before) → Stands before progress.old → inner.AddsWords setting.entry.root.now number before words.now result progress.new }
{
    if words.is_empty() {
        return Ok(Follows {
            text: None,
            is_help: false,
        });
    }
    let said = says(alloc, setting.root, progress.owner(), words)?;
    let text = progress.add(alloc, number, said)?;
    Ok(Follows {
        text,
        is_help: begins_help(words),
    })
}

/// Adds what a line says, and answers what follows it.
pub fn read_line(
    alloc: Global,
    setting: Setting<'_>,
    line: &LogicalLine<'_>,
    progress: &mut Progress,
) -> Result<Follows, LineBad>
    ensures { (before : Before) → Stands before progress.old
        → inner.ReadsLine setting.entry.values.now setting.entry.root.now line.now.number before (text_bytes line.now.text) result progress.new }
{
    let words = words_of(alloc, setting.values, line.bytes())?;
    add_words(alloc, setting, line.number, &words, progress)
}

/// The refusal of a line of a file.
pub fn refusal(alloc: Global, file: &Name, line: u32, bad: LineBad) -> KconfBad
    ensures { inner.IsRefusal file.now line bad result }
{
    let Ok(file) = file.copy(alloc) else {
        return KconfBad::Oom;
    };
    match bad {
        LineBad::Syntax(kind) => KconfBad::Syntax { file, line, kind },
        LineBad::Macro => KconfBad::Macro { file, line },
        LineBad::Depth(what) => KconfBad::Depth { file, line, what },
        LineBad::Oom => KconfBad::Oom,
    }
}
