ghost use Rattle.std.specs.Prelude.{◌≡◌, ◌++◌, OnOk};
ghost use Rattle.ut_case.specs.Words as spec;
ghost use Rattle.ut_report.specs.Lines.{ask_text, class_text, steps_text, word_text};

use crate::numbers::push_count;
use std::alloc::AllocError;
use ut_case::{Ask, Class, Verdict, Word};

/// The word of a verdict.
pub fn word_of(verdict: &Verdict) -> Word
    ensures { result ≡ spec.word_of verdict.now }
{
    match verdict {
        Verdict::Dead { class, .. } => Word::Dead(*class),
        Verdict::Undead { class, .. } => Word::Undead(*class),
        Verdict::Live { .. } => Word::Live,
        Verdict::Undecided { ask, .. } => Word::Undecided(*ask),
    }
}

/// The word of a class.
fn class_word(class: Class) -> &'static str
    ensures { result.now ≡ class_text class }
{
    match class {
        Class::Code => "code",
        Class::Kconfig => "kconfig",
        Class::Missing => "missing",
        Class::Unclassified { steps: _ } => "unclassified",
    }
}

/// The word of what was asked.
fn ask_word(ask: Ask) -> &'static str
    ensures { result.now ≡ ask_text ask }
{
    match ask {
        Ask::Selected => "selected",
        Ask::Dropped => "dropped",
    }
}

/// Appends the steps after which a class question was left, if one was.
fn push_class_steps(text: &mut Vec<u8>, class: Class) -> Result<(), AllocError>
    ensures { OnOk result (text.new.items ≡ text.old.items ++ steps_text class) }
{
    match class {
        Class::Code | Class::Kconfig | Class::Missing => Ok(()),
        Class::Unclassified { steps } => push_count(text, " ", steps),
    }
}

/// Appends a class, with the words after it.
fn push_class(text: &mut Vec<u8>, class: Class, what: &str) -> Result<(), AllocError>
    ensures { OnOk result (text.new.items ≡ text.old.items ++ (class_text class ++ what.now ++ steps_text class)) }
{
    text.extend_from_slice(class_word(class).as_bytes())?;
    text.extend_from_slice(what.as_bytes())?;
    push_class_steps(text, class)
}

/// Appends what the line of a block says of it, where the budget of each question is so many steps.
pub fn push_word(text: &mut Vec<u8>, steps: u64, word: Word) -> Result<(), AllocError>
    ensures { OnOk result (text.new.items ≡ text.old.items ++ word_text steps word) }
{
    match word {
        Word::Dead(class) => push_class(text, class, ".globally.dead"),
        Word::Undead(class) => push_class(text, class, ".globally.undead"),
        Word::Live => text.extend_from_slice(b"live"),
        Word::Undecided(ask) => {
            text.extend_from_slice(b"undecided ")?;
            text.extend_from_slice(ask_word(ask).as_bytes())?;
            push_count(text, " ", steps)
        }
    }
}
