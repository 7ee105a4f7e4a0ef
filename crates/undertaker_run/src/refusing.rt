ghost use Rattle.undertaker_run.specs.Ends.{Says, sink_stand};
ghost use Rattle.undertaker_run.specs.Inner.{Reports};

use crate::bad::Bad;
use crate::err_lines::whole_line;
use crate::status::Status;
use std::alloc::Global;
use ut_base::Sink;

/// Puts one line, or a part of it where the sink fails.
pub(crate) fn say<E: Sink>(err: &mut E, line: &[u8])
    ensures { Says line.now (sink_stand E.Sink err.old) (sink_stand E.Sink err.new) }
{
    let _ = err.put(line);
}

/// Reports a refusal on the error output. Where there is no memory for its line, the run ends for want of memory.
pub(crate) fn refuse<E: Sink>(alloc: Global, err: &mut E, bad: &Bad) -> Status
    ensures { Reports bad.now result (sink_stand E.Sink err.old) (sink_stand E.Sink err.new) }
{
    match whole_line(alloc, bad) {
        Ok(line) => {
            say(err, line.as_slice());
            bad.status()
        }
        Err(_) => {
            say(err, b"memory\n");
            Status::Memory
        }
    }
}
