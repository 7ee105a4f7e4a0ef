ghost use Rattle.std.specs.Prelude.{◌≡◌, ◌↔◌, ◌≤◌, IsTrue, length};
ghost use Rattle.ut_base.specs.Limits.{file_bytes};
ghost use Rattle.ut_base.specs.Reading.{Errors, Reads, asked, stand, wanted};
ghost use Rattle.ut_base.specs.Refused.{IsRefusedBy};
ghost use Rattle.ut_base.specs.declared.meter.TakeBad.TheVariants as bad;

use crate::{FILE_BYTES, Files, Limit, Meter, Name, TakeBad, take};
use std::alloc::Global;
use std::marker::Model;

/// The bytes of a file, which contracts see as they are.
#[derive(Debug, Drop)]
pub struct Content {
    bytes: Vec<u8>,
}

impl Model for Content {
    ghost use Rattle.std.specs.Prelude.{◌≤◌, length};
    ghost use Rattle.ut_text.specs.Bytes.{Bytes};
    ghost use Rattle.ut_base.specs.Limits.{file_bytes};

    ghost Value = { Bytes };

    ghost view = { λ c. c.bytes.items };

    ghost invariant = { λ c. length c.bytes.items ≤ file_bytes };
}

impl Content {
    /// The bytes, at most 16,777,216.
    pub fn bytes(&self) -> &[u8]
        ensures bytes { result.now ≡ self.now }
        ensures within { length self.now ≤ file_bytes }
    {
        self.bytes.as_slice()
    }
}

/// The error of a call that reads files.
pub trait ReadError: Sized {
    /// The refusals that reading makes, and which others there are.
    ghost errors: { Errors Self };

    /// No such file exists.
    fn missing(file: Name) -> Self
        ensures { result ≡ errors.missing file };

    /// The read of this file failed.
    fn fault(file: Name) -> Self
        ensures { result ≡ errors.fault file };

    /// So many bytes are more than a limit allows.
    fn too_large(what: Limit, count: u64) -> Self
        ensures { result ≡ errors.too_large what count };

    /// There was no memory.
    fn memory() -> Self
        ensures { result ≡ errors.memory };
}

fn is_missing(cause: &TakeBad) -> bool
    ensures { IsTrue result ↔ (cause.now ≡ bad.Missing) }
{
    matches!(cause, TakeBad::Missing)
}

/// The refusal of a file that was not taken.
fn refusal<E: ReadError>(alloc: Global, name: &Name, cause: TakeBad) -> E
    ensures { IsRefusedBy E.errors name.now cause result }
{
    match cause {
        TakeBad::Missing => match name.copy(alloc) {
            Ok(file) => E::missing(file),
            Err(_) => E::memory(),
        },
        TakeBad::Fault => match name.copy(alloc) {
            Ok(file) => E::fault(file),
            Err(_) => E::memory(),
        },
        TakeBad::FileTooLong => E::too_large(Limit::FileBytes, u64::from(FILE_BYTES) + 1),
        TakeBad::AllTooLong { count } => E::too_large(Limit::AllBytes, count),
        TakeBad::Oom => E::memory(),
    }
}

/// The bytes of a file, and `None` where there is no such file.
///
/// The refusals are a fault of the read, a limit on bytes that the file passes, and want of memory.
pub fn ask<F: Files, E: ReadError>(
    alloc: Global,
    files: &mut F,
    name: &Name,
    meter: &mut Meter,
) -> Result<Option<Content>, E>
    ensures { Reads (asked E.errors name.now) (stand F.Files files.old) (stand F.Files files.new) meter.old meter.new result }
{
    match take(alloc, files, name, meter) {
        Ok(bytes) => Ok(Some(Content { bytes })),
        Err(cause) if is_missing(&cause) => Ok(None),
        Err(cause) => Err(refusal(alloc, name, cause)),
    }
}

/// The bytes of a file that has to exist.
///
/// The refusals are those of `ask`, and that there is no such file.
pub fn want<F: Files, E: ReadError>(
    alloc: Global,
    files: &mut F,
    name: &Name,
    meter: &mut Meter,
) -> Result<Content, E>
    ensures { Reads (wanted E.errors name.now) (stand F.Files files.old) (stand F.Files files.new) meter.old meter.new result }
{
    match take(alloc, files, name, meter) {
        Ok(bytes) => Ok(Content { bytes }),
        Err(cause) => Err(refusal(alloc, name, cause)),
    }
}
