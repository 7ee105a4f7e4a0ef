ghost use Rattle.std.specs.Prelude.{◌≡◌, IfOk};
ghost use Rattle.std.specs.List.{concat};
ghost use Rattle.ut_base.specs.Outside.{HasCause, Puts};
ghost use Rattle.ut_base.specs.declared.outside.PutEnd.TheVariants as put;
ghost use Rattle.undertaker.specs.Lines.{ended};

use std::alloc::AllocError;
use std::marker::Model;
use ut_base::{PutEnd, Sink};

/// One line of output with its newline, which contracts see as its bytes.
#[derive(Drop)]
pub(crate) struct Line {
    bytes: Vec<u8>,
}

impl Model for Line {
    ghost use Rattle.std.specs.Prelude.{List, ℕ};

    ghost Value = { List ℕ };

    ghost view = { λ l. l.bytes.items };
}

impl Line {
    /// The text as a line.
    pub(crate) fn ended(mut text: Vec<u8>) -> Result<Line, AllocError>
        ensures { IfOk result (λ l. l ≡ ended text.items) }
    {
        text.push(b'\n')?;
        Ok(Line { bytes: text })
    }

    /// The bytes of the line.
    pub(crate) fn bytes(&self) -> &[u8]
        ensures { result.now ≡ self.now }
    {
        self.bytes.as_slice()
    }
}

/// Writes each line by one put. After a fault the sink has taken a part of them from the front.
pub(crate) fn put_lines<S: Sink>(sink: &mut S, lines: &[Line]) -> PutEnd
    ensures taken { Puts (S.taken sink.old) (S.taken sink.new) (concat lines.now) result }
    ensures failed { HasCause (S.faults sink.old) (S.faults sink.new) (result ≡ put.Failed) }
{
    for line in lines {
        match sink.put(line.bytes()) {
            PutEnd::Done => {}
            PutEnd::Failed => return PutEnd::Failed,
        }
    }
    PutEnd::Done
}
