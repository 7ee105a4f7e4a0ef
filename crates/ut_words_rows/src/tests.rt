use crate::shown::{answer, read};
use std::alloc::Global;
use std::test::Fail;
use ut_base::Word;

// Words that spaces cut, and what they come to.
const ROWS: [(&str, &str); 66] = [
    // Each spelling of a value: the next word, `=`, joined to one letter, `-` alone, the empty one.
    ("--kconfig K a.c", "dead kconfig:K file:a.c"),
    ("a.c --kconfig=K", "dead kconfig:K file:a.c"),
    ("-j dead --kconfig K a.c", "dead kconfig:K file:a.c"),
    ("-j=dead --kconfig K a.c", "dead kconfig:K file:a.c"),
    ("-jdead --kconfig K a.c", "dead kconfig:K file:a.c"),
    ("--kconfig=K -t4 a.c", "dead kconfig:K workers:4 file:a.c"),
    ("--kconfig=K -t 4 a.c", "dead kconfig:K workers:4 file:a.c"),
    ("--kconfig=K -t=4 a.c", "dead kconfig:K workers:4 file:a.c"),
    (
        "--kconfig=K --steps=7 a.c",
        "dead kconfig:K steps:7 file:a.c",
    ),
    (
        "--kconfig=K --steps 0 a.c",
        "dead kconfig:K steps:0 file:a.c",
    ),
    (
        "--kconfig K --steps 1000000000000 a.c",
        "dead kconfig:K steps:1000000000000 file:a.c",
    ),
    (
        "--kconfig K --evidence a.c",
        "dead kconfig:K evidence file:a.c",
    ),
    ("-j golem --kbuild -", "golem kbuild:-"),
    ("-j golem --kbuild=--rsf", "golem kbuild:--rsf"),
    ("-j golem --kbuild=K=1", "golem kbuild:K=1"),
    ("-j golem --kbuild==x", "golem kbuild:=x"),
    ("-j generate --size 10000", "generate size:10000"),
    (
        "-j generate --size=1 --style=min -t=64",
        "generate workers:64 size:1 min",
    ),
    ("-j generate --size 1 --style simple", "generate size:1"),
    (
        "--kconfig K --kbuild B --report R --trace T --white W --black X a.c",
        "dead kconfig:K kbuild:B report:R trace:T white:W black:X file:a.c",
    ),
    // Options and files in any order; after `--` all words are files.
    (
        "a.c -t4 --kconfig K - --evidence b.c",
        "dead kconfig:K workers:4 evidence file:a.c file:- file:b.c",
    ),
    (
        "--kconfig K -- -t --rsf --",
        "dead kconfig:K file:-t file:--rsf file:--",
    ),
    ("--kconfig K a.c -- b.c", "dead kconfig:K file:a.c file:b.c"),
    // Values for macros.
    ("--kconfig K --var= a.c", "dead kconfig:K file:a.c"),
    (
        "--kconfig K --var A=,_1=x=y a.c",
        "dead kconfig:K var:A is: var:_1 is:x=y file:a.c",
    ),
    (
        "--kconfig K --var SRCARCH=x86 a.c",
        "dead kconfig:K var:SRCARCH is:x86 file:a.c",
    ),
    // Words that are refused as such.
    ("--kconfig K -x a.c", "words"),
    ("--kconf K a.c", "words"),
    ("--kconfig a --kconfig=a a.c", "words"),
    ("-t1 -t 1 --kconfig K a.c", "words"),
    ("--evidence --kconfig a a.c --evidence", "words"),
    ("--kconfig a --evidence= a.c", "words"),
    ("a.c --kconfig", "words"),
    ("--kconfig -t a.c", "words"),
    ("a.c --kconfig -- b.c", "words"),
    ("--rsf r a.c", "words"),
    ("-mm a.c", "words"),
    // The other kinds.
    ("-j nosuch", "job"),
    ("-j= --kconfig K a.c", "job"),
    ("-j check --kconfig K --report R a.c", "job"),
    ("-j coverage --kconfig K a.c", "job"),
    ("-t 65", "number"),
    ("-t 0", "number"),
    ("-t 01 --kconfig K a.c", "number"),
    ("--kconfig a --steps 10000000000000 a.c", "number"),
    ("--kconfig a --steps 1000000000001 a.c", "number"),
    ("-j golem --kbuild K --size 0", "number"),
    ("--kconfig a --steps +7 a.c", "number"),
    ("--kconfig a --style max a.c", "style"),
    ("--kconfig K --var y=1 a.c", "var"),
    ("--kconfig K --var 12=1 a.c", "var"),
    ("--kconfig K --var A=1,A=1 a.c", "var"),
    ("--kconfig K --var A=1, a.c", "var"),
    ("--kconfig K --var A a.c", "var"),
    ("--kconfig K", "needs"),
    ("a.c", "needs"),
    ("-j golem a.c", "needs"),
    ("-j generate", "needs"),
    ("--kconfig K a.c -- a.c", "file"),
    ("--kconfig K a.c  b.c", "file"),
    ("-j golem --kbuild K --report=", "file"),
    // Of two faults the one that is tested first is answered.
    ("-j nosuch -x", "words"),
    ("-t 0 -j nosuch", "job"),
    ("--style x -t 0", "number"),
    ("--var x --style x", "style"),
    ("--report= a.c --var x", "var"),
];

#[test]
fn words_come_to_what_the_manual_says(rt: HostRuntime) -> Result<(), Fail> {
    for (line, want) in ROWS {
        let found = read(rt.alloc(), line)?;
        assert_eq!(rt; found.as_str(), want, "{line}");
    }
    Ok(())
}

/// What some words come to.
fn come_to(alloc: Global, words: &[&str]) -> Result<String, Fail> {
    let mut list = Vec::new(alloc);
    for word in words {
        list.push(Word::new(alloc, word)?)?;
    }
    Ok(answer(alloc, list.as_slice())?)
}

#[test]
fn empty_words_and_words_with_spaces_have_an_answer(rt: HostRuntime) -> Result<(), Fail> {
    let alloc = rt.alloc();
    let none = come_to(alloc, &[])?;
    assert_eq!(rt; none.as_str(), "needs", "no word");
    let empty = come_to(alloc, &["", ""])?;
    assert_eq!(rt; empty.as_str(), "needs", "two empty words");
    let source = come_to(alloc, &["--kconfig=K", ""])?;
    assert_eq!(rt; source.as_str(), "file", "an empty source");
    let job = come_to(alloc, &["-j", ""])?;
    assert_eq!(rt; job.as_str(), "job", "an empty job");
    let vars = come_to(alloc, &["--var", "", "--kconfig=K", "a.c"])?;
    assert_eq!(rt; vars.as_str(), "dead kconfig:K file:a.c", "no values");
    let spaced = come_to(alloc, &["--kconfig", " K", " a.c"])?;
    assert_eq!(rt;
        spaced.as_str(),
        "file",
        "a source that begins with a space"
    );
    let value = come_to(alloc, &["--kconfig", " K", "a b.c"])?;
    assert_eq!(rt;
        value.as_str(),
        "dead kconfig: K file:a b.c",
        "spaces elsewhere"
    );
    Ok(())
}

/// What a word begins with before 100,000 letters, and what it comes to after a Kconfig text and a source.
const LONG: [(&str, &str); 10] = [
    ("", "file"),
    ("-", "words"),
    ("--", "words"),
    ("-j", "job"),
    ("-t", "number"),
    ("--steps=1", "number"),
    ("--style=min", "style"),
    ("--var=", "var"),
    ("--var=A=1,", "var"),
    ("--report=", "file"),
];

#[test]
fn long_words_have_an_answer(rt: HostRuntime) -> Result<(), Fail> {
    let alloc = rt.alloc();
    let mut letters = String::new(alloc);
    for _ in 0..100_000u32 {
        letters.push_str("a")?;
    }
    for (begin, want) in LONG {
        let word = format!(in alloc; "{begin}{letters}")?;
        let found = come_to(alloc, &["--kconfig=K", "b.c", word.as_str()])?;
        assert_eq!(rt; found.as_str(), want, "{begin}");
    }
    Ok(())
}

#[test]
fn ten_thousand_files_are_taken(rt: HostRuntime) -> Result<(), Fail> {
    let alloc = rt.alloc();
    let mut words = Vec::new(alloc);
    words.push(Word::new(alloc, "--kconfig=K")?)?;
    for number in 0..10_000u32 {
        words.push(Word::new(alloc, format!(in alloc; "{number}.c")?.as_str())?)?;
    }
    let found = answer(alloc, words.as_slice())?;
    assert!(rt;
        found
            .as_str()
            .starts_with("dead kconfig:K file:0.c file:1.c")
    );
    words.push(Word::new(alloc, "7.c")?)?;
    let found = answer(alloc, words.as_slice())?;
    assert_eq!(rt; found.as_str(), "file", "a source twice");
    Ok(())
}
