ghost use Rattle.std.specs.Prelude.{◌≡◌, List, ℕ};
ghost use Rattle.std.specs.Option.{option_map};
ghost use Rattle.kconf_statements.specs.Statements.{attributes, entry_rows};
ghost use Rattle.kconf_statements.specs.Reading as inner;

use kconf_words::{LineWord, is_word};

/// A row of the table of attributes.
#[derive(Clone, Copy)]
pub enum Attribute {
    Bool,
    Tristate,
    Str,
    Hex,
    Int,
    Prompt,
    Default,
    DefBool,
    DefTristate,
    DependsOn,
    Select,
    Imply,
    VisibleIf,
    Range,
    /// `help` or `---help---`.
    Help,
    AnyOption,
    Modules,
    Optional,
}

/// A row of the table of entries and end words.
#[derive(Clone, Copy)]
pub enum EntryWord {
    /// `config` or `menuconfig`.
    Config,
    Choice,
    EndChoice,
    Comment,
    Menu,
    EndMenu,
    If,
    EndIf,
    Source,
    MainMenu,
}

/// The words after the first one, where it is this word.
fn after<'a>(words: &'a [LineWord], text: &[u8]) -> Option<&'a [LineWord]>
    ensures { option_map (λ r. r.now) result ≡ inner.one_after text.now words.now }
{
    match words {
        [first, rest @ ..] if is_word(first, text) => Some(rest),
        _ => None,
    }
}

/// The words after the first two, where they are these words.
fn after_two<'a>(words: &'a [LineWord], text: &[u8], next: &[u8]) -> Option<&'a [LineWord]>
    ensures { option_map (λ r. r.now) result ≡ inner.two_after text.now next.now words.now }
{
    match words {
        [first, second, rest @ ..] if is_word(first, text) && is_word(second, next) => Some(rest),
        _ => None,
    }
}

/// The attribute of a line, and the words after its first words.
pub fn attribute_of(words: &[LineWord]) -> Option<(Attribute, &[LineWord])>
    ensures { option_map (λ f. (inner.attribute_place f.0, f.1.now)) result ≡ inner.attribute_row words.now }
{
    if let Some(rest) = after(words, b"bool") {
        return Some((Attribute::Bool, rest));
    }
    if let Some(rest) = after(words, b"tristate") {
        return Some((Attribute::Tristate, rest));
    }
    if let Some(rest) = after(words, b"string") {
        return Some((Attribute::Str, rest));
    }
    if let Some(rest) = after(words, b"hex") {
        return Some((Attribute::Hex, rest));
    }
    if let Some(rest) = after(words, b"int") {
        return Some((Attribute::Int, rest));
    }
    if let Some(rest) = after(words, b"prompt") {
        return Some((Attribute::Prompt, rest));
    }
    if let Some(rest) = after(words, b"default") {
        return Some((Attribute::Default, rest));
    }
    if let Some(rest) = after(words, b"def_bool") {
        return Some((Attribute::DefBool, rest));
    }
    if let Some(rest) = after(words, b"def_tristate") {
        return Some((Attribute::DefTristate, rest));
    }
    if let Some(rest) = after_two(words, b"depends", b"on") {
        return Some((Attribute::DependsOn, rest));
    }
    if let Some(rest) = after(words, b"select") {
        return Some((Attribute::Select, rest));
    }
    if let Some(rest) = after(words, b"imply") {
        return Some((Attribute::Imply, rest));
    }
    if let Some(rest) = after_two(words, b"visible", b"if") {
        return Some((Attribute::VisibleIf, rest));
    }
    if let Some(rest) = after(words, b"range") {
        return Some((Attribute::Range, rest));
    }
    if let Some(rest) = after(words, b"help") {
        return Some((Attribute::Help, rest));
    }
    if let Some(rest) = after(words, b"---help---") {
        return Some((Attribute::Help, rest));
    }
    if let Some(rest) = after(words, b"option") {
        return Some((Attribute::AnyOption, rest));
    }
    if let Some(rest) = after(words, b"modules") {
        return Some((Attribute::Modules, rest));
    }
    if let Some(rest) = after(words, b"optional") {
        return Some((Attribute::Optional, rest));
    }
    None
}

/// The entry or end word of a line, and the words after it.
pub fn entry_word_of(words: &[LineWord]) -> Option<(EntryWord, &[LineWord])>
    ensures { (root : List ℕ) → option_map (λ f. (inner.entry_place root f.0, f.1.now)) result ≡ inner.entry_row root words.now }
{
    if let Some(rest) = after(words, b"config") {
        return Some((EntryWord::Config, rest));
    }
    if let Some(rest) = after(words, b"menuconfig") {
        return Some((EntryWord::Config, rest));
    }
    if let Some(rest) = after(words, b"choice") {
        return Some((EntryWord::Choice, rest));
    }
    if let Some(rest) = after(words, b"endchoice") {
        return Some((EntryWord::EndChoice, rest));
    }
    if let Some(rest) = after(words, b"comment") {
        return Some((EntryWord::Comment, rest));
    }
    if let Some(rest) = after(words, b"menu") {
        return Some((EntryWord::Menu, rest));
    }
    if let Some(rest) = after(words, b"endmenu") {
        return Some((EntryWord::EndMenu, rest));
    }
    if let Some(rest) = after(words, b"if") {
        return Some((EntryWord::If, rest));
    }
    if let Some(rest) = after(words, b"endif") {
        return Some((EntryWord::EndIf, rest));
    }
    if let Some(rest) = after(words, b"source") {
        return Some((EntryWord::Source, rest));
    }
    if let Some(rest) = after(words, b"mainmenu") {
        return Some((EntryWord::MainMenu, rest));
    }
    None
}
