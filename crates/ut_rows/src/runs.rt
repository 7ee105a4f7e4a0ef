//! Runs over files and sinks in memory, each as one text.

use std::alloc::{AllocError, Global};
use std::test::Fail;
use std::thread::Threads;
use test_texts::files_of;
use undertaker::run;
use ut_base::{FailAt, MemSink, Word};

/// The words of the first form, for the files `Kconfig` and `a.c`.
pub const WORDS: &str = "-j dead --kconfig Kconfig a.c";

/// Which reads fail, counted from 1, and which puts on `out`.
#[derive(Clone, Copy)]
pub struct Faults<'a> {
    pub reads: &'a [u64],
    pub puts: &'a [FailAt],
}

/// No fault.
pub const SOUND: Faults<'static> = Faults {
    reads: &[],
    puts: &[],
};

/// Words with one blank between; no word where the text is empty.
fn words_of(alloc: Global, text: &str) -> Result<Vec<Word>, AllocError> {
    let mut words = Vec::new(alloc);
    if !text.is_empty() {
        for word in text.split(' ') {
            words.push(Word::new(alloc, word)?)?;
        }
    }
    Ok(words)
}

/// A sink with room, of which these puts fail.
fn sink(alloc: Global, fails: &[FailAt]) -> Result<MemSink, AllocError> {
    let mut sink = MemSink::new(alloc, Vec::from_slice(alloc, fails)?)?;
    sink.reserve(20_000)?;
    Ok(sink)
}

/// What a sink took.
fn taken(alloc: Global, sink: &MemSink) -> Result<String, Fail> {
    Ok(String::from_utf8(Vec::from_slice(alloc, sink.bytes())?)?)
}

/// What a run over these files writes on `out` and `err`, and its status, with `|` between.
pub fn run_text<R: Threads + Sync>(
    rt: &R,
    alloc: Global,
    words: &str,
    files: &[(&str, &str)],
    faults: Faults,
) -> Result<String, Fail> {
    let words = words_of(alloc, words)?;
    let mut held = files_of(alloc, files, faults.reads)?;
    let mut out = sink(alloc, faults.puts)?;
    let mut err = sink(alloc, &[])?;
    let status = run(rt, alloc, &words, &mut held, &mut out, &mut err);
    let (out, err) = (taken(alloc, &out)?, taken(alloc, &err)?);
    Ok(format!(in alloc; "{out}|{err}|{status:?}")?)
}

/// The report on a source `a.c` under a Kconfig text, where the run ends well and says nothing on `err`; else what
/// `run_text` answers.
pub fn report<R: Threads + Sync>(
    rt: &R,
    alloc: Global,
    kconfig: &str,
    source: &str,
) -> Result<String, Fail> {
    let files = [("Kconfig", kconfig), ("a.c", source)];
    let text = run_text(rt, alloc, WORDS, files.as_slice(), SOUND)?;
    let out = text.strip_suffix("||Well").unwrap_or(text.as_str());
    Ok(String::from_str(alloc, out)?)
}
