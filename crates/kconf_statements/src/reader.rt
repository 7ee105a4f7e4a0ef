ghost use Rattle.std.specs.Prelude.{◌≡◌, ℕ, IfOk, None};
ghost use Rattle.kconf_statements.specs.EntryLines.{Before};
ghost use Rattle.kconf_statements.specs.Statements.{said};
ghost use Rattle.kconf_statements.specs.declared.lines.Owner.{Owner};
ghost use Rattle.kconf_statements.specs.declared.lines.Owner.TheVariants as owners;
ghost use Rattle.kconf_statements.specs.Says as spec;
ghost use Rattle.kconf_statements.specs.Reading as inner;

use crate::attributes::{choice_line, comment_line, config_line, menu_line};
use crate::entries::entry_line;
use crate::keywords::{Attribute, EntryWord, attribute_of, entry_word_of};
use crate::lines::{Owner, Says};
use kconf_words::{LineBad, LineWord, SyntaxKind};
use std::alloc::Global;
use ut_base::Name;

/// What an attribute says of a config.
fn says_of_config(alloc: Global, attribute: Attribute, words: &[LineWord]) -> Result<Says, LineBad>
    ensures { inner.SaysAfter owners.Config attribute words.now result }
{
    let line = config_line(alloc, attribute, words)?;
    Ok(Says::OfConfig(line))
}

/// What an attribute says of a choice.
fn says_of_choice(alloc: Global, attribute: Attribute, words: &[LineWord]) -> Result<Says, LineBad>
    ensures { inner.SaysAfter owners.Choice attribute words.now result }
{
    let line = choice_line(alloc, attribute, words)?;
    Ok(Says::OfChoice(line))
}

/// What an attribute says of a menu.
fn says_of_menu(alloc: Global, attribute: Attribute, words: &[LineWord]) -> Result<Says, LineBad>
    ensures { inner.SaysAfter owners.Menu attribute words.now result }
{
    let line = menu_line(alloc, attribute, words)?;
    Ok(Says::OfMenu(line))
}

/// What an attribute says of a comment: nothing that has an effect.
fn says_of_comment(alloc: Global, attribute: Attribute, words: &[LineWord]) -> Result<Says, LineBad>
    ensures { inner.SaysAfter owners.Comment attribute words.now result }
{
    comment_line(alloc, attribute, words)?;
    Ok(Says::OfComment)
}

/// What an attribute says of the entry before it.
fn attribute_says(
    alloc: Global,
    owner: Owner,
    attribute: Attribute,
    words: &[LineWord],
) -> Result<Says, LineBad>
    ensures { inner.SaysAfter owner attribute words.now result }
{
    match owner {
        Owner::Nothing => Err(LineBad::Syntax(SyntaxKind::Attribute)),
        Owner::Config => says_of_config(alloc, attribute, words),
        Owner::Choice => says_of_choice(alloc, attribute, words),
        Owner::Menu => says_of_menu(alloc, attribute, words),
        Owner::Comment => says_of_comment(alloc, attribute, words),
    }
}

/// The entry that a word begins, or the end word that it is.
fn entry_after(
    alloc: Global,
    root: &Name,
    word: EntryWord,
    words: &[LineWord],
) -> Result<Says, LineBad>
    ensures { inner.BeginsEntry root.now word words.now result }
{
    let entry = entry_line(alloc, root, word, words)?;
    Ok(Says::Entry(entry))
}

/// What a line says that begins with no attribute.
fn entry_says(alloc: Global, root: &Name, words: &[LineWord]) -> Result<Says, LineBad>
    requires { None ≡ inner.attribute_row words.now }
    ensures adds { (line : ℕ) (before : Before) → spec.SaysOf (said root.now line before words.now) line before result }
    ensures fits { (owner : Owner) → IfOk result (spec.IsOf owner) }
{
    match entry_word_of(words) {
        Some((word, rest)) => entry_after(alloc, root, word, rest),
        None => Err(LineBad::Syntax(SyntaxKind::Word)),
    }
}

/// What a line of words says after an entry of this kind; paths are read beside the root text.
///
/// Errors: the first fault from the left, where the line cannot go on; after these a macro call left in a path, and too
/// many signs over one word of an expression. Whether an entry may stand where it stands is not asked here.
pub fn says(alloc: Global, root: &Name, owner: Owner, words: &[LineWord]) -> Result<Says, LineBad>
    ensures adds { (line : ℕ) (before : Before) → spec.owner_of before ≡ owner → spec.SaysOf (said root.now line before words.now) line before result }
    ensures fits { IfOk result (spec.IsOf owner) }
{
    match attribute_of(words) {
        Some((attribute, rest)) => attribute_says(alloc, owner, attribute, rest),
        None => entry_says(alloc, root, words),
    }
}
