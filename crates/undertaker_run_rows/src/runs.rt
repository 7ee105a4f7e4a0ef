//! Runs over files and sinks in memory, each as one text.

use std::alloc::{AllocError, Global};
use std::test::Fail;
use std::thread::Threads;
use test_rows::files_of;
use undertaker_run::{Status, run};
use ut_base::{FailAt, Files, MemSink, Word};

/// Which puts fail on the output, and which on the error output.
#[derive(Clone, Copy)]
pub struct Puts<'a> {
    pub out: &'a [FailAt],
    pub err: &'a [FailAt],
}

/// No put fails.
pub const SOUND: Puts<'static> = Puts { out: &[], err: &[] };

/// Words with one blank between; no word where the text is empty.
fn words_of(alloc: Global, text: &str) -> Result<Vec<Word>, AllocError> {
    let mut words = Vec::new(alloc);
    if !text.is_empty() {
        for word in text.split(' ') {
            words.push(Word::new(alloc, word)?)?;
        }
    }
    Ok(words)
}

/// A sink with room, of which these puts fail.
fn sink(alloc: Global, fails: &[FailAt]) -> Result<MemSink, AllocError> {
    let mut sink = MemSink::new(alloc, Vec::from_slice(alloc, fails)?)?;
    sink.reserve(20_000)?;
    Ok(sink)
}

/// What a sink took.
fn taken(alloc: Global, sink: &MemSink) -> Result<String, Fail> {
    Ok(String::from_utf8(Vec::from_slice(alloc, sink.bytes())?)?)
}

/// What a run writes, its status on a line of its own, and what it writes on the error output.
pub fn run_over<R: Threads + Sync, F: Files>(
    rt: &R,
    alloc: Global,
    words: &str,
    files: &mut F,
    puts: Puts<'_>,
) -> Result<String, Fail> {
    let words = words_of(alloc, words)?;
    let mut out = sink(alloc, puts.out)?;
    let mut err = sink(alloc, puts.err)?;
    let status: Status = run(rt, alloc, &words, files, &mut out, &mut err);
    let (out, err) = (taken(alloc, &out)?, taken(alloc, &err)?);
    Ok(format!(in alloc; "{out}status {}\n{err}", status.code())?)
}

/// The files of a block: each begins with a line `@` and its name.
pub fn files_in<'a>(alloc: Global, given: &'a str) -> Result<Vec<(&'a str, &'a str)>, Fail> {
    let mut texts = Vec::new(alloc);
    for part in given.split('@') {
        if !part.is_empty() {
            texts.push(part.split_once('\n').ok_or("a file without a name")?)?;
        }
    }
    Ok(texts)
}

/// What a run writes, of a block: a line with its words, and then its files.
pub fn run_block<R: Threads + Sync>(rt: &R, alloc: Global, given: &str) -> Result<String, Fail> {
    let (words, files) = given.split_once('\n').ok_or("a line of words")?;
    let texts = files_in(alloc, files)?;
    let mut held = files_of(alloc, texts.as_slice(), &[])?;
    run_over(rt, alloc, words, &mut held, SOUND)
}
