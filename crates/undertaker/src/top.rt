ghost use Rattle.std.specs.Prelude.{◌≡◌, IfOk, IfSome};
ghost use Rattle.std.specs.List.{concat};
ghost use Rattle.ut_base.specs.Outside.{HasCause};
ghost use Rattle.undertaker.specs.Lines.{ended};
ghost use Rattle.undertaker.specs.Outcome.{outcome_of};
ghost use Rattle.undertaker.specs.Refusals.{bad_line};
ghost use Rattle.undertaker.specs.Run.{EndsBy, EndsWith, IsUsage, KeepsOut, SaysAll, Tells, TellsFault, TellsOne, TellsOutcome, Writes, WritesLines, line_at};
ghost use Rattle.undertaker.specs.Told.{DeadIsOff, LiveIsNeither, NamesBadLine, UndeadIsOn};
ghost use Rattle.undertaker.specs.Words.{names_in};

use crate::bad::Bad;
use crate::gather::gather;
use crate::lines::{Line, put_lines};
use crate::status::Status;
use std::alloc::{AllocError, Global};
use std::thread::Threads;
use ut_base::{Files, PutEnd, Sink, Word};

/// Puts one line, or a part of it where the sink fails.
fn say<E: Sink>(err: &mut E, line: &[u8])
    ensures { SaysAll E.taken E.faults err.old err.new line.now }
{
    let _ = err.put(line);
}

/// The line of a refusal.
fn line_of(alloc: Global, bad: &Bad) -> Result<Line, AllocError>
    ensures { IfOk result (λ l. l ≡ ended (bad_line bad.now)) }
{
    let text = bad.text(alloc)?;
    Line::ended(text)
}

/// Writes the line of a refusal to `err`. Where there is no memory for the line, the run fails because memory runs out.
fn refuse<E: Sink>(alloc: Global, err: &mut E, bad: &Bad) -> Status
    ensures status { EndsWith bad.now result }
    ensures told { Tells E.taken E.faults err.old err.new (line_at bad.now result) }
{
    match line_of(alloc, bad) {
        Ok(line) => {
            say(err, line.bytes());
            bad.status()
        }
        Err(_) => {
            say(err, b"memory\n");
            Status::Memory
        }
    }
}

/// Writes the lines of the text, each by one put. A fault ends the writing and has its line on `err`.
fn write<O: Sink, E: Sink>(out: &mut O, err: &mut E, lines: &[Line]) -> Status
    ensures written { WritesLines (O.taken out.old) (O.taken out.new) (concat lines.now) result }
    ensures told { TellsFault E.taken E.faults err.old err.new result }
    ensures write_fault { HasCause (O.faults out.old) (O.faults out.new) (result ≡ Status.WriteFault) }
{
    match put_lines(out, lines) {
        PutEnd::Done => Status::Well,
        PutEnd::Failed => {
            say(err, b"output: write fault\n");
            Status::WriteFault
        }
    }
}

/// Prints one verdict line for each conditional block of a source, and the total line.
///
/// The words are `-j dead --kconfig K F`: the names of a Kconfig text and of a source. The first refusal
/// in the order of work (words, Kconfig text, source) ends the run with one line on `err`. The whole
/// text is made before its first line is put. A failing `err` changes no status.
pub fn run<R: Threads + Sync, F: Files, O: Sink, E: Sink>(
    _rt: &R,
    alloc: Global,
    words: &[Word],
    files: &mut F,
    out: &mut O,
    err: &mut E,
) -> Status
    // What is written: the whole report where the run ends well, and a part of it after a write fault.
    ensures written { IfSome (F.held files.old) (λ held. Writes (O.taken out.old) (O.taken out.new) (outcome_of words.now held) result) }
    ensures kept { KeepsOut (O.taken out.old) (O.taken out.new) result }
    ensures same { F.held files.new ≡ F.held files.old }

    // What the words of a report say.
    ensures dead_is_off { DeadIsOff }
    ensures undead_is_on { UndeadIsOn }
    ensures live_is_neither { LiveIsNeither }

    // A refusal is the first one of the words and the files.
    ensures refusal { IfSome (F.held files.old) (λ held. EndsBy (outcome_of words.now held) result) }
    ensures first_bad_line { IfSome (F.held files.old) (λ held. NamesBadLine held (outcome_of words.now held)) }
    ensures usage { IsUsage (names_in words.now) result }

    // The one line on `err`.
    ensures err { TellsOne E.taken E.faults err.old err.new (names_in words.now) result }
    ensures err_told { IfSome (F.held files.old) (λ held. TellsOutcome E.taken E.faults err.old err.new (outcome_of words.now held) result) }

    // Each fault has its cause in this run.
    ensures read_fault { HasCause (F.faults files.old) (F.faults files.new) (result ≡ Status.ReadFault) }
    ensures missing { HasCause (F.missing files.old) (F.missing files.new) (result ≡ Status.Missing) }
    ensures long { HasCause (F.long files.old) (F.long files.new) (result ≡ Status.Limit) }
    ensures write_fault { HasCause (O.faults out.old) (O.faults out.new) (result ≡ Status.WriteFault) }
{
    let lines = match gather(alloc, words, files) {
        Ok(lines) => lines,
        Err(bad) => return refuse(alloc, err, &bad),
    };
    write(out, err, lines.as_slice())
}
