use std::alloc::Global;
use std::test::Fail;
use ut_base::{MemFile, MemFiles, Name};

/// A file of a name and a text.
fn file_of(alloc: Global, name: &str, text: &str) -> Result<MemFile, Fail> {
    let name = Name::new(alloc, name)?.ok_or("a name")?;
    let bytes = Vec::from_slice(alloc, text.as_bytes())?;
    Ok(MemFile { name, bytes })
}

/// Files in memory, each a name and its text, where the reads with these numbers, counted from 1, fail. An error is a
/// name that no file may have, or want of memory.
pub fn files_of(alloc: Global, texts: &[(&str, &str)], fails: &[u64]) -> Result<MemFiles, Fail> {
    let mut list = Vec::new(alloc);
    for (name, text) in texts {
        list.push(file_of(alloc, *name, *text)?)?;
    }
    Ok(MemFiles::new(alloc, list, Vec::from_slice(alloc, fails)?)?)
}
