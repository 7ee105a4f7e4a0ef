ghost use Rattle.std.specs.Prelude.{◌≡◌, ◌≤◌, true, length};
ghost use Rattle.std.specs.List.{list_all, prefix_len};
ghost use Rattle.ut_text.specs.ByteClasses as classes;
ghost use Rattle.cpp_read.specs.Words as spec;
ghost use Rattle.cpp_read.specs.LogicalLines as lines;

use cpp_directives::Part;
use ut_text::{begins_names, name_len};

/// The word that names a directive.
#[derive(Clone, Copy)]
pub enum Word {
    If,
    Elif,
    Ifdef,
    Ifndef,
    Elifdef,
    Elifndef,
    Else,
    Endif,
    Define,
    Undef,
    Other,
}

/// The directive that a word names.
pub fn word_of(word: &[u8]) -> Word
    ensures { result ≡ spec.word_of word.now }
{
    if word == b"if".as_slice() {
        Word::If
    } else if word == b"ifdef".as_slice() {
        Word::Ifdef
    } else if word == b"ifndef".as_slice() {
        Word::Ifndef
    } else {
        chain_word(word)
    }
}

/// The word that goes on with a chain or ends it, or another.
fn chain_word(word: &[u8]) -> Word
    ensures { result ≡ spec.chain_word word.now }
{
    if word == b"elif".as_slice() {
        Word::Elif
    } else if word == b"elifdef".as_slice() {
        Word::Elifdef
    } else if word == b"elifndef".as_slice() {
        Word::Elifndef
    } else if word == b"else".as_slice() {
        Word::Else
    } else if word == b"endif".as_slice() {
        Word::Endif
    } else {
        macro_word(word)
    }
}

/// `define`, `undef`, or another word.
fn macro_word(word: &[u8]) -> Word
    ensures { result ≡ spec.macro_word word.now }
{
    if word == b"define".as_slice() {
        Word::Define
    } else if word == b"undef".as_slice() {
        Word::Undef
    } else {
        Word::Other
    }
}

/// What a directive with this word does to chains of conditionals.
pub fn part_of(word: Word) -> Part
    ensures { result ≡ spec.part_of word }
{
    match word {
        Word::If | Word::Ifdef | Word::Ifndef => Part::If,
        Word::Elif | Word::Elifdef | Word::Elifndef => Part::Elif,
        Word::Else => Part::Else,
        Word::Endif => Part::Endif,
        Word::Define | Word::Undef | Word::Other => Part::Other,
    }
}

/// White space in a line.
pub fn is_white(byte: u8) -> bool
    ensures { result ≡ lines.is_white byte }
{
    byte == b' ' || byte == b'\t' || byte == 11 || byte == 12 || byte == b'\r'
}

/// How many bytes of white space stand at the front.
pub fn white_len(text: &[u8]) -> usize
    ensures value { result ≡ prefix_len lines.is_white text.now }
    ensures within { result ≤ length text.now }
{
    let mut count = 0;
    for byte in text {
        if !is_white(*byte) {
            return count;
        }
        count += 1;
    }
    count
}

/// The text after its leading white space.
pub fn after_white(text: &[u8]) -> &[u8]
    ensures { result.now ≡ spec.after_white text.now }
{
    &text[white_len(text)..]
}

/// The bytes of a name at the front, which may be none, and what stands after them.
pub fn split_name(text: &[u8]) -> (&[u8], &[u8])
    ensures name { result.0.now ≡ spec.name_at text.now }
    ensures after { result.1.now ≡ spec.after_name text.now }
    ensures bytes { list_all classes.is_name_byte result.0.now ≡ true }
{
    text.split_at(name_len(text))
}

/// Whether a text begins with a name.
pub fn begins_name(text: &[u8]) -> bool
    ensures { result ≡ spec.begins_name text.now }
{
    match text {
        [first, ..] => begins_names(*first),
        [] => false,
    }
}
