ghost use Rattle.std.specs.Prelude.{◌≡◌, ◌+◌, ◌++◌, IfOk, OnOk, decimal, map};
ghost use Rattle.ut_report.specs.Lines.{ask_text, block_line, class_text, steps_text, word_text};
ghost use Rattle.undertaker.specs.Report as spec;
ghost use Rattle.undertaker.specs.Lines.{ended, lines_on};
ghost use Rattle.undertaker.specs.Written as written;

use crate::lines::Line;
use crate::totals::Totals;
use itoa::Buffer;
use std::alloc::{AllocError, Global};
use ut_base::Name;
use ut_case::{Ask, Class, Word};

/// No question of the first form is given a budget, and none is left undecided.
const STEPS: u64 = 0;

/// The word of a class.
fn class_word(class: Class) -> &'static str
    ensures { result.now ≡ class_text class }
{
    match class {
        Class::Code => "code",
        Class::Kconfig => "kconfig",
        Class::Missing => "missing",
        Class::Unclassified { steps: _ } => "unclassified",
    }
}

/// The word of what was asked.
fn ask_word(ask: Ask) -> &'static str
    ensures { result.now ≡ ask_text ask }
{
    match ask {
        Ask::Selected => "selected",
        Ask::Dropped => "dropped",
    }
}

/// Adds what stands in front of a number, and the number.
pub(crate) fn add_count(text: &mut Vec<u8>, what: &str, count: u64) -> Result<(), AllocError>
    ensures { OnOk result (text.new.items ≡ text.old.items ++ what.now ++ decimal count) }
{
    let mut buffer = Buffer::new();
    text.extend_from_slice(what.as_bytes())?;
    text.extend_from_slice(buffer.format(count).as_bytes())
}

/// Adds a class with the words after it.
fn add_class(text: &mut Vec<u8>, class: Class, what: &str) -> Result<(), AllocError>
    ensures { OnOk result (text.new.items ≡ text.old.items ++ (class_text class ++ what.now ++ steps_text class)) }
{
    text.extend_from_slice(class_word(class).as_bytes())?;
    text.extend_from_slice(what.as_bytes())?;
    match class {
        Class::Unclassified { steps } => add_count(text, " ", steps),
        _ => Ok(()),
    }
}

/// Adds the word of a verdict line.
fn add_word(text: &mut Vec<u8>, word: Word) -> Result<(), AllocError>
    ensures { OnOk result (text.new.items ≡ text.old.items ++ word_text STEPS word) }
{
    match word {
        Word::Dead(class) => add_class(text, class, ".globally.dead"),
        Word::Undead(class) => add_class(text, class, ".globally.undead"),
        Word::Live => text.extend_from_slice(b"live"),
        Word::Undecided(ask) => {
            text.extend_from_slice(b"undecided ")?;
            text.extend_from_slice(ask_word(ask).as_bytes())?;
            add_count(text, " ", STEPS)
        }
    }
}

/// The line of a block's verdict.
fn verdict_line(alloc: Global, name: &Name, block: u64, word: Word) -> Result<Line, AllocError>
    ensures { IfOk result (λ l. l ≡ ended (block_line name.now STEPS block word)) }
{
    let mut text = Vec::from_slice(alloc, name.text().as_bytes())?;
    add_count(&mut text, ".B", block)?;
    text.push(b'.')?;
    add_word(&mut text, word)?;
    Line::ended(text)
}

/// One line for each block in order, from block 1.
fn block_lines(alloc: Global, name: &Name, words: &[Word]) -> Result<Vec<Line>, AllocError>
    ensures { IfOk result (λ lines. lines.items ≡ map ended (spec.block_lines name.now STEPS 1 words.now)) }
{
    let mut lines = Vec::with_capacity(alloc, words.len())?;
    let mut block = 0;
    for word in words {
        block += 1;
        lines.push(verdict_line(alloc, name, block, *word)?)?;
    }
    Ok(lines)
}

/// The report on a source whose blocks have these words, in order from block 1.
pub(crate) fn verdict_lines(
    alloc: Global,
    name: &Name,
    words: &[Word],
) -> Result<Vec<Line>, AllocError>
    ensures { IfOk result (λ lines. lines.items ≡ lines_on name.now words.now) }
{
    let mut lines = block_lines(alloc, name, words)?;
    lines.push(Totals::of_words(words).line(alloc)?)?;
    Ok(lines)
}

/// The line on a source that is refused at this line of it.
fn refused_line(alloc: Global, name: &Name, line: u32) -> Result<Line, AllocError>
    ensures { IfOk result (λ l. l ≡ ended (written.refused_line name.now line)) }
{
    let mut text = Vec::from_slice(alloc, name.text().as_bytes())?;
    add_count(&mut text, ".refused notyet ", u64::from(line))?;
    Line::ended(text)
}

/// What is written on a source that is refused at this line of it.
pub(crate) fn refused_lines(alloc: Global, name: &Name, line: u32) -> Result<Vec<Line>, AllocError>
    ensures { IfOk result (λ lines. lines.items ≡ map ended (written.refused_lines name.now line)) }
{
    let mut lines = Vec::new(alloc);
    lines.push(refused_line(alloc, name, line)?)?;
    lines.push(Totals::of_words(&[]).line(alloc)?)?;
    Ok(lines)
}
