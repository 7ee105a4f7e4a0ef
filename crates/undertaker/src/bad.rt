ghost use Rattle.std.specs.Prelude.{◌≡◌, IfOk};
ghost use Rattle.undertaker.specs.ErrLines.{limit_line, named_line, placed_line};
ghost use Rattle.undertaker.specs.Refusals.{bad_line, bad_status, kconf_line, kconf_status, take_line, take_status};

use crate::Status;
use crate::first_kconfig::KconfigBad;
use itoa::Buffer;
use std::alloc::{AllocError, Global};
use ut_base::{FILE_BYTES, Limit, Name, TakeBad};

/// Why a run ends before the text is made.
#[derive(Drop)]
pub enum Bad {
    /// The words are not of the form that is read.
    Usage,

    /// The Kconfig text was not read.
    Kconfig(KconfigBad),

    /// The source with this name was not taken.
    Source { name: Name, bad: TakeBad },

    /// There was no memory.
    Oom,
}

impl Bad {
    /// The status of a run that ends so.
    pub(crate) fn status(&self) -> Status
        ensures { result ≡ bad_status self.now }
    {
        match self {
            Bad::Usage => Status::Usage,
            Bad::Kconfig(bad) => status_of_kconfig(bad),
            Bad::Source { name: _, bad } => status_of_take(bad),
            Bad::Oom => Status::Memory,
        }
    }

    /// The line of a run that ends so, without its newline.
    pub(crate) fn text(&self, alloc: Global) -> Result<Vec<u8>, AllocError>
        ensures { IfOk result (λ l. l.items ≡ bad_line self.now) }
    {
        match self {
            Bad::Usage => Vec::from_slice(alloc, b"undertaker: usage: words"),
            Bad::Kconfig(bad) => text_of_kconfig(alloc, bad),
            Bad::Source { name, bad } => text_of_take(alloc, name, bad),
            Bad::Oom => Vec::from_slice(alloc, b"memory"),
        }
    }
}

/// The status of a refused Kconfig text.
fn status_of_kconfig(bad: &KconfigBad) -> Status
    ensures { result ≡ kconf_status bad.now }
{
    match bad {
        KconfigBad::NotYet { .. } => Status::Refused,
        KconfigBad::Missing { .. } => Status::Missing,
        KconfigBad::ReadFault { .. } => Status::ReadFault,
        KconfigBad::TooLarge { .. } => Status::Limit,
        KconfigBad::Oom => Status::Memory,
    }
}

/// The status of a source that was not taken.
fn status_of_take(bad: &TakeBad) -> Status
    ensures { result ≡ take_status bad.now }
{
    match bad {
        TakeBad::Missing => Status::Missing,
        TakeBad::Fault => Status::ReadFault,
        TakeBad::FileTooLong | TakeBad::AllTooLong { .. } => Status::Limit,
        TakeBad::Oom => Status::Memory,
    }
}

/// The line on a refused Kconfig text.
fn text_of_kconfig(alloc: Global, bad: &KconfigBad) -> Result<Vec<u8>, AllocError>
    ensures { IfOk result (λ l. l.items ≡ kconf_line bad.now) }
{
    match bad {
        KconfigBad::NotYet { file, line } => placed(alloc, file, *line, "not yet"),
        KconfigBad::Missing { file } => named(alloc, file, "missing"),
        KconfigBad::ReadFault { file } => named(alloc, file, "read fault"),
        KconfigBad::TooLarge { what, count } => passed(alloc, *what, *count),
        KconfigBad::Oom => Vec::from_slice(alloc, b"memory"),
    }
}

/// The line on a source that was not taken.
fn text_of_take(alloc: Global, name: &Name, bad: &TakeBad) -> Result<Vec<u8>, AllocError>
    ensures { IfOk result (λ l. l.items ≡ take_line name.now bad.now) }
{
    match bad {
        TakeBad::Missing => named(alloc, name, "missing"),
        TakeBad::Fault => named(alloc, name, "read fault"),
        TakeBad::FileTooLong => passed(alloc, Limit::FileBytes, u64::from(FILE_BYTES) + 1),
        TakeBad::AllTooLong { count } => passed(alloc, Limit::AllBytes, *count),
        TakeBad::Oom => Vec::from_slice(alloc, b"memory"),
    }
}

/// `FILE: WHAT`.
fn named(alloc: Global, file: &Name, what: &str) -> Result<Vec<u8>, AllocError>
    ensures { IfOk result (λ l. l.items ≡ named_line file.now what.now) }
{
    let mut text = Vec::from_slice(alloc, file.text().as_bytes())?;
    text.extend_from_slice(b": ")?;
    text.extend_from_slice(what.as_bytes())?;
    Ok(text)
}

/// `FILE:LINE: WHAT`.
fn placed(alloc: Global, file: &Name, line: u32, what: &str) -> Result<Vec<u8>, AllocError>
    ensures { IfOk result (λ l. l.items ≡ placed_line file.now line what.now) }
{
    let mut buffer = Buffer::new();
    let mut text = Vec::from_slice(alloc, file.text().as_bytes())?;
    text.push(b':')?;
    text.extend_from_slice(buffer.format(line).as_bytes())?;
    text.extend_from_slice(b": ")?;
    text.extend_from_slice(what.as_bytes())?;
    Ok(text)
}

/// `limit: WHAT COUNT`.
fn passed(alloc: Global, what: Limit, count: u64) -> Result<Vec<u8>, AllocError>
    ensures { IfOk result (λ l. l.items ≡ limit_line what count) }
{
    let mut buffer = Buffer::new();
    let mut text = Vec::from_slice(alloc, b"limit: ")?;
    text.extend_from_slice(what.word().as_bytes())?;
    text.push(b' ')?;
    text.extend_from_slice(buffer.format(count).as_bytes())?;
    Ok(text)
}
