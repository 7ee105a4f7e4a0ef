ghost use Rattle.std.specs.Prelude.{◌≡◌, IfOk};
ghost use Rattle.kconf_words.specs.Faults.{Gives};
ghost use Rattle.kconf_rests.specs.Rests as spec;
ghost use Rattle.kconf_rests.specs.Reading as inner;

use kconf_words::{Form, LineBad, LineWord, SyntaxKind, is_name, is_word, text_of};
use std::alloc::{AllocError, Global};
use std::str;
use ut_base::Name;
use ut_logic::Text;

/// Nothing may be left.
pub fn nothing(words: &[LineWord]) -> Result<(), LineBad>
    ensures { inner.GivesNothing result (spec.nothing words.now) }
{
    match words {
        [] => Ok(()),
        [_, ..] => Err(LineBad::Syntax(SyntaxKind::Extra)),
    }
}

/// A text is a quoted word or an unquoted one, but no sign.
fn is_text(form: Form) -> bool
    ensures { result ≡ inner.is_text_form form }
{
    match form {
        Form::Bare => true,
        Form::Quoted => true,
        Form::Sign => false,
    }
}

/// The words after a text.
pub fn text_at(words: &[LineWord]) -> Result<&[LineWord], LineBad>
    ensures { inner.TextAt words.now result }
{
    match words {
        [first, rest @ ..] if is_text(first.form) => Ok(rest),
        _ => Err(LineBad::Syntax(SyntaxKind::Expression)),
    }
}

/// One text.
pub fn a_text(words: &[LineWord]) -> Result<(), LineBad>
    ensures { inner.GivesNothing result (spec.a_text words.now) }
{
    let rest = text_at(words)?;
    nothing(rest)
}

/// A name, and the words after it.
pub fn name_at(alloc: Global, words: &[LineWord]) -> Result<(Text, &[LineWord]), LineBad>
    ensures { inner.NameAt words.now result }
{
    match words {
        [first, rest @ ..] if is_name(first) => {
            let name = text_of(alloc, first)?;
            Ok((name, rest))
        }
        _ => Err(LineBad::Syntax(SyntaxKind::Named)),
    }
}

/// One name.
pub fn a_name(alloc: Global, words: &[LineWord]) -> Result<Text, LineBad>
    ensures { Gives result (spec.a_name words.now) }
{
    let (name, rest) = name_at(alloc, words)?;
    match rest {
        [] => Ok(name),
        [_, ..] => Err(LineBad::Syntax(SyntaxKind::Extra)),
    }
}

/// One name, or nothing.
pub fn a_name_or_nothing(alloc: Global, words: &[LineWord]) -> Result<Option<Text>, LineBad>
    ensures { Gives result (spec.a_name_or_nothing words.now) }
{
    match words {
        [] => Ok(None),
        [_, ..] => {
            let name = a_name(alloc, words)?;
            Ok(Some(name))
        }
    }
}

/// The file that a path names beside the root text. Bytes that are no UTF-8 name none.
fn file_of(alloc: Global, root: &Name, path: &[u8]) -> Result<Option<Name>, AllocError>
    ensures { IfOk result (λ f. f ≡ spec.file_of root.now path.now) }
{
    match str::from_utf8(path) {
        Ok(path) => root.beside(alloc, path),
        Err(_) => Ok(None),
    }
}

/// One path: the file that it names beside the root text. No macro call may be left in it.
pub fn a_path(alloc: Global, root: &Name, words: &[LineWord]) -> Result<Name, LineBad>
    ensures { Gives result (spec.a_path root.now words.now) }
{
    let missing = LineBad::Syntax(SyntaxKind::Expression);
    let [path, rest @ ..] = words else {
        return Err(missing);
    };
    if !is_text(path.form) {
        return Err(missing);
    }
    let Some(file) = file_of(alloc, root, path.text.as_slice())? else {
        return Err(missing);
    };
    if !rest.is_empty() {
        return Err(LineBad::Syntax(SyntaxKind::Extra));
    }
    if path.has_call {
        return Err(LineBad::Macro);
    }
    Ok(file)
}

/// Whether the words are `modules` alone.
pub fn is_modules(words: &[LineWord]) -> bool
    ensures { result ≡ spec.is_modules words.now }
{
    match words {
        [word] => is_word(word, b"modules"),
        _ => false,
    }
}
