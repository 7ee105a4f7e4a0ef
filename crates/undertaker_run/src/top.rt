ghost use Rattle.std.specs.Prelude.{◌≡◌, IfSome, Ok};
ghost use Rattle.std.specs.FinMap.{get};
ghost use Rattle.ut_base.specs.Outside.{HasCause};
ghost use Rattle.ut_base.specs.Reading.{stand};
ghost use Rattle.undertaker_run.specs.Ends.{Ends, sink_stand, sinks};
ghost use Rattle.undertaker_run.specs.Orders.{order_of};
ghost use Rattle.undertaker_run.specs.Run.{IsCalm, IsComplete, IsExact, IsGolemRun, IsUsage, KeepsOut, Runs, SaysWhy};

use crate::output::Output;
use crate::refusing::{refuse, say};
use crate::status::Status;
use crate::work::work;
use std::alloc::Global;
use std::thread::Threads;
use ut_base::{Files, PutEnd, Sink, Word};

/// Writes the text, each line by one put. A fault ends the writing and has its line on the error output.
fn write<O: Sink, E: Sink>(out: &mut O, err: &mut E, text: &Output) -> Status
    ensures ends { Ends (Ok text.now) (sinks O.Sink E.Sink out.old err.old) (sinks O.Sink E.Sink out.new err.new) result }
    ensures write_fault { HasCause (O.faults out.old) (O.faults out.new) (result ≡ Status.WriteFault) }
{
    match text.put_lines(out) {
        PutEnd::Done => Status::Well,
        PutEnd::Failed => {
            say(err, b"output: write fault\n");
            Status::WriteFault
        }
    }
}

/// Does what the words order: reads the files that they name, and writes the text of their job.
///
/// `words` are those after the program's name. The order of work is: the words; the Kbuild texts; making the whole text;
/// writing, each line by one put. The first refusal in this order ends the run with its one line on `err`, and then nothing
/// was written. A fault of `out` ends the writing, and has its line on `err` too. A failing `err` changes no status.
///
/// The status is `Well` where the whole text was written, and else names the refusal: `Usage` of the words, `Refused` of a
/// line that isn't of its text's grammar, `Missing` and `ReadFault` of a file, `Limit` where there is too much,
/// `WriteFault` of `out`. `Memory` may come in place of each of these before the first write. Rule: this project's own.
pub fn run<R: Threads + Sync, F: Files, O: Sink, E: Sink>(
    _rt: &R,
    alloc: Global,
    words: &[Word],
    files: &mut F,
    out: &mut O,
    err: &mut E,
) -> Status
    // Over all files: what was read, in which order, what that comes to, and how the run ends by it.
    ensures runs { Runs words.now (stand F.Files files.old) (stand F.Files files.new) (sinks O.Sink E.Sink out.old err.old) (sinks O.Sink E.Sink out.new err.new) result }

    // By the status alone.
    ensures kept { KeepsOut result (sink_stand O.Sink out.old) (sink_stand O.Sink out.new) }
    ensures why { SaysWhy words.now result (sink_stand E.Sink err.old) (sink_stand E.Sink err.new) }
    ensures usage { IsUsage (order_of words.now) result }

    // Over files that are known: the text, or the first refusal.
    ensures exact { IfSome (F.held files.old) (λ m. IsExact (get m) words.now result) }
    ensures complete { IfSome (F.held files.old) (λ m. IsComplete (get m) words.now (IsCalm (stand F.Files files.old) (stand F.Files files.new) (sink_stand O.Sink out.old) (sink_stand O.Sink out.new)) result) }
    ensures golem { IfSome (F.held files.old) (λ m. IsGolemRun (get m) words.now (sinks O.Sink E.Sink out.old err.old) (sinks O.Sink E.Sink out.new err.new) result) }
    ensures same { F.held files.new ≡ F.held files.old }

    // Each fault has its cause in this run.
    ensures read_fault { HasCause (F.faults files.old) (F.faults files.new) (result ≡ Status.ReadFault) }
    ensures missing { HasCause (F.missing files.old) (F.missing files.new) (result ≡ Status.Missing) }
    ensures write_fault { HasCause (O.faults out.old) (O.faults out.new) (result ≡ Status.WriteFault) }
{
    let text = match work(alloc, words, files) {
        Ok(text) => text,
        Err(bad) => return refuse(alloc, err, &bad),
    };
    write(out, err, &text)
}
