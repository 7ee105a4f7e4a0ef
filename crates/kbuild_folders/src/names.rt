ghost use Rattle.std.specs.Prelude.{◌≡◌, ◌++◌, IfOk};
ghost use Rattle.kbuild_folders.specs.Names as spec;

use std::alloc::{AllocError, Global};
use ut_base::Name;

/// Two texts in one.
fn joined(alloc: Global, first: &[u8], second: &[u8]) -> Result<Vec<u8>, AllocError>
    ensures { IfOk result (λ text. text.items ≡ first.now ++ second.now) }
{
    let mut text = Vec::with_capacity(alloc, first.len())?;
    text.extend_from_slice(first)?;
    text.extend_from_slice(second)?;
    Ok(text)
}

/// The name that bytes are, if they are the name of a file.
pub fn file_name(alloc: Global, bytes: &[u8]) -> Result<Option<Name>, AllocError>
    ensures { IfOk result (λ name. name ≡ spec.file_name bytes.now) }
{
    match std::str::from_utf8(bytes) {
        Ok(text) => Name::new(alloc, text),
        Err(_) => Ok(None),
    }
}

/// The place of the root text, and of the text that is read: its folder.
#[derive(Clone, Copy)]
pub struct Place<'a> {
    pub base: &'a [u8],
    pub folder: &'a [u8],
}

impl<'a> Place<'a> {
    /// The name of a file in the folder.
    pub fn file(&self, alloc: Global, file: &[u8]) -> Result<Option<Name>, AllocError>
        ensures { IfOk result (λ name. name ≡ spec.file_at self.now.base.now self.now.folder.now file.now) }
    {
        let mut bytes = joined(alloc, self.base, self.folder)?;
        bytes.extend_from_slice(file)?;
        file_name(alloc, bytes.as_slice())
    }

    /// The name of an object in the folder relative to the root text's, without `.o`, where it is the name of a file.
    pub fn object(&self, alloc: Global, name: &[u8]) -> Result<Option<Vec<u8>>, AllocError>
        ensures { IfOk result (λ object. spec.bytes_in object ≡ spec.object_at self.now.base.now self.now.folder.now name.now) }
    {
        let file = joined(alloc, name, b".o")?;
        match self.file(alloc, file.as_slice())? {
            Some(_) => Ok(Some(joined(alloc, self.folder, name)?)),
            None => Ok(None),
        }
    }

    /// The name of a folder in the folder relative to the root text's, where its texts have names of files.
    pub fn folder(&self, alloc: Global, name: &[u8]) -> Result<Option<Vec<u8>>, AllocError>
        ensures { IfOk result (λ folder. spec.bytes_in folder ≡ spec.folder_at self.now.base.now self.now.folder.now name.now) }
    {
        if name.is_empty() {
            return Ok(None);
        }
        let file = joined(alloc, name, b"Makefile")?;
        match self.file(alloc, file.as_slice())? {
            Some(_) => Ok(Some(joined(alloc, self.folder, name)?)),
            None => Ok(None),
        }
    }
}
