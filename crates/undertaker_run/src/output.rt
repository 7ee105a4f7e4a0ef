ghost use Rattle.std.specs.Prelude.{◌≡◌, ◌++◌, ◌<◌, length};
ghost use Rattle.ut_base.specs.Outside.{HasCause, Puts};
ghost use Rattle.ut_base.specs.declared.outside.PutEnd.TheVariants as put;

use memchr::memchr;
use std::marker::Model;
use ut_base::{PutEnd, Sink};

/// The whole text of a run, which contracts see as its bytes.
#[derive(Drop)]
pub struct Output {
    bytes: Vec<u8>,
}

impl Model for Output {
    ghost use Rattle.ut_text.specs.Bytes.{Bytes};

    ghost Value = { Bytes };

    ghost view = { λ o. o.bytes.items };
}

impl Output {
    /// A text of these bytes.
    pub(crate) fn new(bytes: Vec<u8>) -> Output
        ensures { result ≡ bytes.items }
    {
        Output { bytes }
    }

    /// Writes each line by one put. After a fault the sink has taken a part of the text from the front.
    pub(crate) fn put_lines<S: Sink>(&self, sink: &mut S) -> PutEnd
        ensures taken { Puts (S.taken sink.old) (S.taken sink.new) self.now result }
        ensures failed { HasCause (S.faults sink.old) (S.faults sink.new) (result ≡ put.Failed) }
    {
        let mut rest = self.bytes.as_slice();
        while !rest.is_empty() {
            let (line, after) = first_line(rest);
            match sink.put(line) {
                PutEnd::Done => rest = after,
                PutEnd::Failed => return PutEnd::Failed,
            }
        }
        PutEnd::Done
    }
}

/// The first line with its newline, which the last line may lack, and the text after it.
fn first_line(text: &[u8]) -> (&[u8], &[u8])
    requires { 0 < length text.now }
    ensures whole { text.now ≡ result.0.now ++ result.1.now }
    ensures shorter { length result.1.now < length text.now }
{
    match memchr(b'\n', text) {
        Some(newline) => text.split_at(newline + 1),
        None => text.split_at(text.len()),
    }
}
