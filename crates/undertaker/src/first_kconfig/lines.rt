ghost use Rattle.std.specs.Prelude.{◌≡◌, ◌≤◌, ◌<◌, ◌∷◌, map, true, IfOk, length};
ghost use Rattle.std.specs.List.{prefix_len};
ghost use Rattle.undertaker.specs.FirstKconfig.Form as spec;
ghost use Rattle.undertaker.specs.FirstKconfig.Words.{later_words, Takes};

use sqlite_items::Items;
use std::alloc::{AllocError, Global};
use ut_logic::Text;
use ut_text::{are_name_bytes, is_capital};

/// What a line of the first form says.
#[derive(Drop)]
pub enum FirstLine {
    Config(Text),
    Prompt,
    Depends(Items<Text>),
    Other,
}

/// A capital, and bytes of names.
fn is_name(text: &[u8]) -> bool
    ensures { result ≡ spec.is_name text.now }
{
    match text {
        [first, rest @ ..] => is_capital(*first) && are_name_bytes(rest),
        [] => false,
    }
}

/// A name as a text.
fn name_text(alloc: Global, name: &[u8]) -> Result<Text, AllocError>
    requires { spec.is_name name.now ≡ true }
    ensures { IfOk result (λ t. t ≡ name.now) }
{
    Text::of_bytes(alloc, name)
}

/// A byte that may stand in a prompt.
fn is_text_byte(byte: u8) -> bool
    ensures { result ≡ spec.is_text_byte byte }
{
    byte != b'"' && byte != b'\'' && byte != b'\\' && byte != b'$'
}

/// How many bytes of a prompt stand in front.
fn text_len(text: &[u8]) -> usize
    ensures value { result ≡ prefix_len spec.is_text_byte text.now }
    ensures within { result ≤ length text.now }
{
    let mut count = 0;
    for byte in text {
        if !is_text_byte(*byte) {
            return count;
        }
        count += 1;
    }
    count
}

/// Bytes of a prompt, and the closing quote.
fn ends_quoted(text: &[u8]) -> bool
    ensures { result ≡ spec.ends_quoted text.now }
{
    &text[text_len(text)..] == b"\"".as_slice()
}

/// A line of a type with a prompt.
fn is_prompt(line: &[u8]) -> bool
    ensures { result ≡ spec.is_prompt line.now }
{
    line.starts_with(b"\tbool \"".as_slice()) && ends_quoted(&line[7..])
}

/// A line that declares a symbol.
fn is_config(line: &[u8]) -> bool
    ensures { result ≡ spec.is_config line.now }
{
    line.starts_with(b"config ".as_slice()) && is_name(&line[7..])
}

/// A line with a dependency.
fn is_depends(line: &[u8]) -> bool
    ensures { result ≡ spec.is_depends line.now }
{
    line.starts_with(b"\tdepends on ".as_slice())
}

/// What a line says.
pub fn first_line(alloc: Global, line: &[u8]) -> Result<FirstLine, AllocError>
    ensures { IfOk result (λ f. f ≡ spec.first_line line.now) }
{
    if is_config(line) {
        let name = name_text(alloc, &line[7..])?;
        return Ok(FirstLine::Config(name));
    }
    if is_prompt(line) {
        return Ok(FirstLine::Prompt);
    }
    if is_depends(line) {
        return depends_line(alloc, &line[12..]);
    }
    Ok(FirstLine::Other)
}

/// What a line with these after `depends on` says.
fn depends_line(alloc: Global, text: &[u8]) -> Result<FirstLine, AllocError>
    ensures { IfOk result (λ f. f ≡ spec.depends_line (spec.names_from true (spec.words_of text.now))) }
{
    let words = words_of(alloc, text)?;
    match names_of(alloc, &words)? {
        Some(names) => Ok(FirstLine::Depends(names)),
        None => Ok(FirstLine::Other),
    }
}

/// How many bytes stand before the first blank.
fn word_len(text: &[u8]) -> usize
    ensures value { result ≡ prefix_len spec.is_word_byte text.now }
    ensures within { result ≤ length text.now }
{
    let mut count = 0;
    for byte in text {
        if *byte == b' ' {
            return count;
        }
        count += 1;
    }
    count
}

/// The first word, and what stands after it.
fn split_word(text: &[u8]) -> (&[u8], &[u8])
    ensures words { spec.words_of text.now ≡ result.0.now ∷ later_words result.1.now }
    ensures within { length result.1.now ≤ length text.now }
{
    text.split_at(word_len(text))
}

/// What stands after the space at the front.
fn behind_space(text: &[u8]) -> &[u8]
    requires { 0 < length text.now }
    ensures words { spec.words_of result.now ≡ later_words text.now }
    ensures shorter { length result.now < length text.now }
{
    &text[1..]
}

/// The words between single spaces.
fn words_of(alloc: Global, text: &[u8]) -> Result<Vec<&[u8]>, AllocError>
    ensures { IfOk result (λ v. map (λ t. t.now) v.items ≡ spec.words_of text.now) }
{
    let mut list = Vec::new(alloc);
    let mut rest = text;
    'words: loop {
        let (word, behind) = split_word(rest);
        list.push(word)?;
        if behind.is_empty() {
            break 'words;
        }
        rest = behind_space(behind);
    }
    Ok(list)
}

/// The names that these words join by `&&`.
fn names_of(alloc: Global, words: &[&[u8]]) -> Result<Option<Items<Text>>, AllocError>
    ensures { IfOk result (λ o. o ≡ spec.names_from true (map (λ t. t.now) words.now)) }
{
    let mut names = Items::new(alloc);
    let mut wants_name = true;
    for word in words {
        if !takes_word(alloc, wants_name, word, &mut names)? {
            return Ok(None);
        }
        wants_name = !wants_name;
    }
    if wants_name {
        return Ok(None);
    }
    Ok(Some(names))
}

/// Whether a word stands where one like it is wanted; a name goes after the others.
fn takes_word(
    alloc: Global,
    wants_name: bool,
    word: &[u8],
    names: &mut Items<Text>,
) -> Result<bool, AllocError>
    ensures { IfOk result (λ ok. Takes wants_name word.now names.old names.new ok) }
{
    if !wants_name {
        return Ok(word == b"&&".as_slice());
    }
    if !is_name(word) {
        return Ok(false);
    }
    names.push(name_text(alloc, word)?)?;
    Ok(true)
}
