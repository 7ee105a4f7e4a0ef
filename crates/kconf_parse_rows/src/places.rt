use crate::readings::read_among;
use std::alloc::Global;
use std::test::Fail;
use test_rows::check_lines;

/// What stands before and after lines: nothing, a config, a choice, a menu or a comment.
const PLACES: [(&str, &str); 5] = [
    ("", ""),
    ("config A", ""),
    ("choice", "endchoice"),
    ("menu m", "endmenu"),
    ("comment c", ""),
];

/// The mark of a text whose second line may be at fault: `+` where the text is read, else a letter of the fault.
fn mark(read: &str) -> char {
    match read {
        "Kconfig:2: Attribute" => '-',
        "Kconfig:2: Choice" => 'c',
        "Kconfig:2: End" => 'e',
        _ if read.starts_with("Kconfig") => '!',
        _ => '+',
    }
}

/// A mark for the lines in each place, with a file `x` beside the text.
fn marks(alloc: Global, lines: &str) -> Result<String, Fail> {
    let mut marks = String::new(alloc);
    for (before, after) in PLACES {
        let text = format!(in alloc; "{before}\n{lines}\n{after}")?;
        let read = read_among(alloc, &[("Kconfig", text.as_str()), ("x", "")], &[], &[])?;
        marks.push(mark(read.as_str()))?;
    }
    Ok(marks)
}

const TYPES: &str = r#"
bool "a" => -++--
tristate "a" => -++--
string "a" => -+---
hex "a" => -+---
int "a" => -+---
def_bool y => -+---
def_tristate y => -+---
prompt "a" => -++--
default B => -++--
"#;

#[test]
fn types_and_prompts_after_each_entry(rt: HostRuntime) -> Result<(), Fail> {
    check_lines(rt.alloc(), TYPES, marks)
}

const ATTRIBUTES: &str = "
depends on B => -++++
select B => -+---
imply B => -+---
range 1 2 => -+---
visible if B => ---+-
optional => --+--
modules => -+---
option x => -+---
help => -++--
---help--- => -++--
";

#[test]
fn other_attributes_after_each_entry(rt: HostRuntime) -> Result<(), Fail> {
    check_lines(rt.alloc(), ATTRIBUTES, marks)
}

const ENTRIES: &str = r#"
mainmenu "x" => ++c++
comment "x" => +++++
menu "x"\nendmenu => ++c++
config B => +++++
menuconfig B => +++++
choice\nendchoice => ++c++
if B\nendif => +++++
source x => +++++
"#;

#[test]
fn entries_after_each_entry(rt: HostRuntime) -> Result<(), Fail> {
    check_lines(rt.alloc(), ENTRIES, marks)
}

const END_WORDS: &str = r"
endif => eeeee
endmenu\nmenu x => eee+e
endchoice\nchoice => ee+ee
";

#[test]
fn end_words_after_each_entry(rt: HostRuntime) -> Result<(), Fail> {
    check_lines(rt.alloc(), END_WORDS, marks)
}
