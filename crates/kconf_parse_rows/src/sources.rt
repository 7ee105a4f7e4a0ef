use crate::readings::{read_alone, read_among, vars_of};
use kconf_entries::Var;
use std::alloc::Global;
use std::test::Fail;
use test_rows::check_lines;

/// The values that are handed in where a path names one.
fn vars(alloc: Global) -> Result<Vec<Var>, Fail> {
    vars_of(alloc, &[("SRCARCH", "x86")])
}

/// What a text that sources another one gives.
fn sourcing(alloc: Global, root: &str, vars: &[Var], inner: &str) -> Result<String, Fail> {
    let texts = [("Kconfig", root), ("arch/x86/Kconfig", inner)];
    read_among(alloc, texts.as_slice(), vars, &[])
}

const IN_PLACE: &str = r"
config D\n => A untyped depends y; D untyped depends B; C untyped depends y
config D\nendif => arch/x86/Kconfig:2: End
\nmenu x\nif E => arch/x86/Kconfig:2: Unclosed
menu x\nendmenu => A untyped depends y; C untyped depends y
help => arch/x86/Kconfig:1: Attribute
source no => no: Missing
source arch/x86/Kconfig => arch/x86/Kconfig:1: sourcedepth
";

#[test]
fn sourced_texts_stand_in_their_place(rt: HostRuntime) -> Result<(), Fail> {
    let root = "config A\nif B\nsource \"arch/$(SRCARCH)/Kconfig\"\nendif\nconfig C";
    let vars = vars(rt.alloc())?;
    let answer = |alloc: Global, inner: &str| sourcing(alloc, root, vars.as_slice(), inner);
    check_lines(rt.alloc(), IN_PLACE, answer)
}

const TWICE: &str = r"
config D => D untyped depends y; D untyped depends B
choice\nconfig D\nendchoice => arch/x86/Kconfig:2: Choice
choice C\nendchoice => arch/x86/Kconfig:1: Choice
";

#[test]
fn a_text_sourced_twice_is_read_twice(rt: HostRuntime) -> Result<(), Fail> {
    let root = "source arch/x86/Kconfig\nif B\nsource \"arch/x86/Kconfig\"\nendif";
    let vars = vars(rt.alloc())?;
    let answer = |alloc: Global, inner: &str| sourcing(alloc, root, vars.as_slice(), inner);
    check_lines(rt.alloc(), TWICE, answer)
}

const IN_A_CHOICE: &str = r"
config D => Kconfig:3: Attribute
\nmenu m\nendmenu => arch/x86/Kconfig:2: Choice
endchoice => arch/x86/Kconfig:1: End
";

#[test]
fn texts_sourced_in_a_choice(rt: HostRuntime) -> Result<(), Fail> {
    let root = "choice\nsource arch/$(SRCARCH)/Kconfig\noptional\nendchoice";
    let vars = vars(rt.alloc())?;
    let answer = |alloc: Global, inner: &str| sourcing(alloc, root, vars.as_slice(), inner);
    check_lines(rt.alloc(), IN_A_CHOICE, answer)
}

/// So many openers, then these lines, then the same number of end words.
fn nested(alloc: Global, count: usize, lines: &str) -> Result<String, Fail> {
    let mut text = "if A\n".repeat(alloc, count)?;
    text.push_str(lines)?;
    text.push_str("endif\n".repeat(alloc, count)?.as_str())?;
    Ok(text)
}

/// What lines in so many openers give: the number, a blank, and the lines.
fn read_nested(alloc: Global, given: &str) -> Result<String, Fail> {
    let (count, lines) = given.split_once(' ').ok_or("a number and lines")?;
    read_alone(
        alloc,
        nested(alloc, count.parse::<usize>()?, lines)?.as_str(),
    )
}

const OPENERS: &str = r"
64  =>
65  => Kconfig:65: nesting
64 menu m\n => Kconfig:65: nesting
63 choice\nmenu m\n => Kconfig:65: Choice
64 if A B\n => Kconfig:65: Extra
";

#[test]
fn at_most_64_openers_are_open(rt: HostRuntime) -> Result<(), Fail> {
    check_lines(rt.alloc(), OPENERS, read_nested)
}

/// A line with so many parentheses round a word.
fn bracketed(alloc: Global, before: &str, count: usize, after: &str) -> Result<String, Fail> {
    let opened = "(".repeat(alloc, count)?;
    let closed = ")".repeat(alloc, count)?;
    Ok(format!(in alloc; "{before}{opened}B{closed}{after}")?)
}

/// What a text with so many parentheses round a word gives: the number, a blank, and the text with `..` for them.
fn read_bracketed(alloc: Global, given: &str) -> Result<String, Fail> {
    let (count, text) = given.split_once(' ').ok_or("a number and a text")?;
    let (before, after) = text.split_once("..").ok_or("a place for the word")?;
    read_alone(
        alloc,
        bracketed(alloc, before, count.parse::<usize>()?, after)?.as_str(),
    )
}

const SIGNS: &str = r"
200 config A\ndepends on .. => A untyped depends B
201 config A\ndepends on .. => Kconfig:2: brackets
200 config A\ndepends on !.. => Kconfig:2: brackets
201 config A\ndepends on .. x => Kconfig:2: Extra
201 config A\ndefault .. if ( => Kconfig:2: Expression
201 config A\nimply .. => Kconfig:2: Named
5000 config A\ndepends on .. => Kconfig:2: brackets
";

#[test]
fn at_most_200_signs_stand_over_a_word(rt: HostRuntime) -> Result<(), Fail> {
    let alloc = rt.alloc();
    check_lines(alloc, SIGNS, read_bracketed)?;
    let line = bracketed(alloc, "if ", 201, "\n")?;
    let found = read_alone(alloc, nested(alloc, 64, line.as_str())?.as_str())?;
    assert!(rt; found.as_str() == "Kconfig:65: brackets", "{found}");
    Ok(())
}

/// A text without its values, with them, and one that is too long.
const LIMITS: &str = r#"
source "Kconfig" => Kconfig:1: sourcedepth
source arch/$(SRCARCH)/Kconfig => Kconfig:1: Macro
"#;

#[test]
fn limits_on_texts(rt: HostRuntime) -> Result<(), Fail> {
    let alloc = rt.alloc();
    check_lines(alloc, LIMITS, read_alone)?;
    let texts = [("Kconfig", "source arch/$(SRCARCH)/Kconfig")];
    let found = read_among(alloc, texts.as_slice(), vars(alloc)?.as_slice(), &[])?;
    assert!(rt; found.as_str() == "arch/x86/Kconfig: Missing", "{found}");
    let found = read_alone(alloc, "\n".repeat(alloc, 16_777_217)?.as_str())?;
    assert!(rt; found.as_str() == "filebytes 16777217", "{found}");
    Ok(())
}

/// What three texts give where the read with this number fails.
fn read_failing(alloc: Global, number: &str) -> Result<String, Fail> {
    let texts = [
        ("Kconfig", "source a\nsource b\nboll"),
        ("a", "config A"),
        ("b", "config B"),
    ];
    read_among(alloc, texts.as_slice(), &[], &[number.parse::<u64>()?])
}

const FAILING_READS: &str = "
1 => Kconfig: ReadFault
2 => a: ReadFault
3 => b: ReadFault
4 => Kconfig:3: Word
";

#[test]
fn the_read_that_fails_is_named(rt: HostRuntime) -> Result<(), Fail> {
    check_lines(rt.alloc(), FAILING_READS, read_failing)
}
