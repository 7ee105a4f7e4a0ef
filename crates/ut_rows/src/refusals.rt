use crate::runs::{Faults, SOUND, WORDS, report, run_text};
use crate::texts::{K1, S1};
use std::alloc::{AllocError, Global};
use std::test::Fail;
use std::thread::Threads;
use test_texts::check_lines;
use ut_base::FailAt;

/// What a run over some files writes: the word for the files, a blank, `|` and the words of the run.
fn refused<R: Threads + Sync>(rt: &R, alloc: Global, row: &str) -> Result<String, Fail> {
    let (word, words) = row.split_once(" |").ok_or("files and words")?;
    let words = words.strip_prefix(' ').unwrap_or(words);
    let both = [("Kconfig", K1), ("a.c", S1)];
    let tristate = [("Kconfig", "config A\n\ttristate \"a\"\n"), ("a.c", S1)];
    match word {
        "both" => run_text(rt, alloc, words, both.as_slice(), SOUND),
        "kconfig" => run_text(rt, alloc, words, &both[..1], SOUND),
        "none" => run_text(rt, alloc, words, &[], SOUND),
        "tristate" => run_text(rt, alloc, words, tristate.as_slice(), SOUND),
        _ => Err(Fail::from("other files")),
    }
}

const REFUSALS: &str = r"
tristate | -j dead --kconfig Kconfig a.c => |Kconfig:2: not yet\n|Refused
kconfig | -j dead --kconfig Kconfig a.c => |a.c: missing\n|Missing
none | -j dead --kconfig Kconfig a.c => |Kconfig: missing\n|Missing
both | -j dead --kconfig a.c a.c => |undertaker: usage: words\n|Usage
both | -j nosuch --kconfig Kconfig a.c => |undertaker: usage: words\n|Usage
-- an empty name
both | -j dead --kconfig  a.c => |undertaker: usage: words\n|Usage
both | -j dead --kconfig Kconfig => |undertaker: usage: words\n|Usage
-- no word
both | => |undertaker: usage: words\n|Usage
";

#[test]
fn each_refusal_has_its_line(rt: HostRuntime) -> Result<(), Fail> {
    let answer = |alloc: Global, row: &str| refused(&rt, alloc, row);
    check_lines(rt.alloc(), REFUSALS, answer)
}

/// What a run writes where `read` or `put` and a number fail; a put takes three bytes before it fails.
fn failing<R: Threads + Sync>(rt: &R, alloc: Global, row: &str) -> Result<String, Fail> {
    let (word, number) = row.split_once(' ').ok_or("a word and a number")?;
    let number = number.parse::<u64>()?;
    let files = [("Kconfig", K1), ("a.c", S1)];
    let (reads, call) = if word == "read" {
        (number, 0)
    } else {
        (0, number)
    };
    let faults = Faults {
        reads: &[reads],
        puts: &[FailAt { call, taken: 3 }],
    };
    run_text(rt, alloc, WORDS, files.as_slice(), faults)
}

const FAULTS: &str = r"
read 1 => |Kconfig: read fault\n|ReadFault
read 2 => |a.c: read fault\n|ReadFault
put 2 => a.c.B1.live\na.c|output: write fault\n|WriteFault
";

#[test]
fn each_fault_has_its_line(rt: HostRuntime) -> Result<(), Fail> {
    let answer = |alloc: Global, row: &str| failing(&rt, alloc, row);
    check_lines(rt.alloc(), FAULTS, answer)
}

/// What a run writes where the Kconfig text's name has so many bytes, with `NAME` for that name.
fn named<R: Threads + Sync>(rt: &R, alloc: Global, row: &str) -> Result<String, Fail> {
    let name = "x".repeat(alloc, row.parse::<usize>()?)?;
    let words = format!(in alloc; "-j dead --kconfig {name} a.c")?;
    let files = [("Kconfig", K1), ("a.c", S1)];
    let text = run_text(rt, alloc, words.as_str(), files.as_slice(), SOUND)?;
    Ok(text.replace(alloc, name.as_str(), "NAME")?)
}

const NAMES: &str = r"
4096 => |NAME: missing\n|Missing
4097 => |undertaker: usage: words\n|Usage
";

#[test]
fn a_name_has_up_to_4096_bytes(rt: HostRuntime) -> Result<(), Fail> {
    let answer = |alloc: Global, row: &str| named(&rt, alloc, row);
    check_lines(rt.alloc(), NAMES, answer)
}

/// So many blocks that ask for one macro, each in the one before it.
fn nested(alloc: Global, depth: usize) -> Result<String, AllocError> {
    let mut text = "#ifdef X\n".repeat(alloc, depth)?;
    text.push_str("#endif\n".repeat(alloc, depth)?.as_str())?;
    Ok(text)
}

/// The source of a row: so many bytes, or blocks.
fn source_of(alloc: Global, row: &str) -> Result<String, Fail> {
    let (word, count) = row.split_once(' ').ok_or("a word and a number")?;
    let count = count.parse::<usize>()?;
    if word == "bytes" {
        Ok("x".repeat(alloc, count)?)
    } else {
        Ok(nested(alloc, count)?)
    }
}

const LIMITS: &str = r"
bytes 16777217 => |limit: filebytes 16777217\n|Limit
blocks 251 => a.c.refused notyet 251\nblocks 0 dead 0 undead 0 live 0 undecided 0\n
";

/// The report on 250 blocks that ask for one macro, each in the one before it.
fn report_on_250(alloc: Global) -> Result<String, AllocError> {
    let mut text = String::from_str(alloc, "a.c.B1.live\n")?;
    for block in 2..251_u32 {
        text.push_str("a.c.B")?;
        text.push_str(block.to_string(alloc)?.as_str())?;
        text.push_str(".code.globally.undead\n")?;
    }
    text.push_str("blocks 250 dead 0 undead 249 live 1 undecided 0\n")?;
    Ok(text)
}

#[test]
fn a_source_is_taken_up_to_the_limits(rt: HostRuntime) -> Result<(), Fail> {
    let alloc = rt.alloc();
    let answer = |alloc: Global, row: &str| report(&rt, alloc, K1, source_of(alloc, row)?.as_str());
    check_lines(alloc, LIMITS, answer)?;
    let found = report(&rt, alloc, K1, nested(alloc, 250)?.as_str())?;
    assert!(rt; found.as_str() == report_on_250(alloc)?.as_str(), "{found}");
    Ok(())
}
