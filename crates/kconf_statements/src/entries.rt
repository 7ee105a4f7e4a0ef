ghost use Rattle.std.specs.Prelude.{◌≡◌};
ghost use Rattle.kconf_statements.specs.Reading as inner;

use crate::keywords::EntryWord;
use crate::lines::{EntryLine, Opens};
use kconf_rests::{a_name, a_name_or_nothing, a_path, a_text, an_expression, nothing};
use kconf_words::{LineBad, LineWord};
use std::alloc::Global;
use ut_base::Name;

/// An end word.
fn end(opens: Opens, words: &[LineWord]) -> Result<EntryLine, LineBad>
    ensures { inner.GivesEntry result (inner.end_rest opens words.now) }
{
    nothing(words)?;
    Ok(EntryLine::End(opens))
}

/// What the words after an entry's first word, or after an end word, say.
pub fn entry_line(
    alloc: Global,
    root: &Name,
    word: EntryWord,
    words: &[LineWord],
) -> Result<EntryLine, LineBad>
    ensures { inner.GivesEntry result (inner.entry_rest root.now word words.now) }
{
    match word {
        EntryWord::Config => Ok(EntryLine::Config(a_name(alloc, words)?)),
        EntryWord::Choice => Ok(EntryLine::Choice(a_name_or_nothing(alloc, words)?)),
        EntryWord::EndChoice => end(Opens::Choice, words),
        EntryWord::Comment => {
            a_text(words)?;
            Ok(EntryLine::Comment)
        }
        EntryWord::Menu => {
            a_text(words)?;
            Ok(EntryLine::Menu)
        }
        EntryWord::EndMenu => end(Opens::Menu, words),
        EntryWord::If => Ok(EntryLine::If(an_expression(alloc, words)?)),
        EntryWord::EndIf => end(Opens::If, words),
        EntryWord::Source => Ok(EntryLine::Source(a_path(alloc, root, words)?)),
        EntryWord::MainMenu => {
            a_text(words)?;
            Ok(EntryLine::MainMenu)
        }
    }
}
