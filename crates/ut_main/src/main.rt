//! The program `undertaker`: hands the words of the command line, real files and the standard streams to
//! `run`, and ends with the code of its status.
//!
//! Job dead is that of `undertaker`, which reads texts of the first form. All other words are those of `undertaker_run`.
#![tactic(auto)]

use std::alloc::{AllocError, Global};
use std::io::ErrorKind;
use std::process::ExitCode;
use std::{env, io};
use undertaker_run::Status;
use ut_base::{DiskFiles, PutEnd, Sink, StdSink, Word};
use ut_words::{Job, parse};

/// The words behind the program's name.
fn words_of(alloc: Global, texts: &[String]) -> Result<Vec<Word>, AllocError> {
    let mut words = Vec::new(alloc);
    for text in texts.get(1..).unwrap_or(&[]) {
        words.push(Word::new(alloc, text.as_str())?)?;
    }
    Ok(words)
}

fn end_with<E: Sink + Drop>(mut err: E, line: &[u8], status: Status) -> ExitCode {
    let _: PutEnd = err.put(line);
    ExitCode::from(status.code())
}

/// Why the words could not be taken: they are no text, or there is no memory for them.
fn end_without_words<E: Sink + Drop>(err: E, error: &io::Error) -> ExitCode {
    match error.kind() {
        ErrorKind::OutOfMemory => end_with(err, b"memory\n", Status::Memory),
        _ => end_with(err, b"undertaker: usage: words\n", Status::Usage),
    }
}

/// Whether the words are an order for job dead.
fn is_dead(alloc: Global, words: &[Word]) -> bool {
    match parse(alloc, words) {
        Ok(order) => matches!(order.job, Job::Dead),
        Err(_) => false,
    }
}

fn main(rt: HostRuntime) -> ExitCode {
    let alloc = rt.alloc();
    let mut err = StdSink::new(rt.stderr());
    let texts: Result<Vec<String>, io::Error> = env::args(&rt).and_then(|args| Ok(args.collect(
        alloc,
    )?));
    let texts = match texts {
        Ok(texts) => texts,
        Err(error) => return end_without_words(err, &error),
    };
    let Ok(words) = words_of(alloc, &texts) else {
        return end_with(err, b"memory\n", Status::Memory);
    };
    let mut files = DiskFiles::new(&rt);
    let mut out = StdSink::new(rt.stdout());
    let code = if is_dead(alloc, &words) {
        undertaker::run(&rt, alloc, &words, &mut files, &mut out, &mut err).code()
    } else {
        undertaker_run::run(&rt, alloc, &words, &mut files, &mut out, &mut err).code()
    };
    ExitCode::from(code)
}
