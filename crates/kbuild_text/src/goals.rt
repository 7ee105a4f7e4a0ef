ghost use Rattle.std.specs.Prelude.{◌≡◌, ◌∷◌, [], IfOk, length};
ghost use Rattle.kbuild_text.specs.Goals as spec;

use crate::marks::{Mark, has_call, push_bytes};
use sqlite_items::Items;
use std::alloc::{AllocError, Global};

/// What a word names, relative to the folder of its text.
#[derive(Debug, Drop)]
pub enum Goal {
    /// The object with this name and `.o`.
    Object(Items<u8>),

    /// The folder with this name, which ends with `/`.
    Folder(Items<u8>),
}

/// Whether the first part of a path is `..`.
fn begins_up(path: &[u8]) -> bool
    ensures { result ≡ spec.begins_up path.now }
{
    path == b"..".as_slice() || path.starts_with(b"../")
}

/// Whether a part of a path after its first is `..`.
fn has_up_after(path: &[u8]) -> bool
    ensures { result ≡ spec.has_up_after path.now }
{
    let mut rest = path;
    while let [byte, after @ ..] = rest {
        if *byte == b'/' && begins_up(after) {
            return true;
        }
        rest = after;
    }
    false
}

/// Whether a path leads out of the folder.
fn leads_out(path: &[u8]) -> bool
    ensures { result ≡ spec.leads_out path.now }
{
    path.starts_with(b"/") || begins_up(path) || has_up_after(path)
}

/// What a path names.
fn goal_at(path: Vec<u8>) -> Option<Goal>
    ensures { result ≡ spec.goal_at path.items }
{
    let mut path = path;
    if leads_out(path.as_slice()) {
        return None;
    }
    if path.as_slice().ends_with(b"/") {
        return Some(Goal::Folder(Items::from_vec(path)));
    }
    if path.len() <= 2 || !path.as_slice().ends_with(b".o") {
        return None;
    }
    path.truncate(path.len() - 2);
    Some(Goal::Object(Items::from_vec(path)))
}

/// What a word names.
pub fn read_goal(alloc: Global, word: &[Mark]) -> Result<Option<Goal>, AllocError>
    ensures { IfOk result (λ goal. goal ≡ spec.goal_of word.now) }
{
    if has_call(word) {
        return Ok(None);
    }
    let mut path = Vec::new(alloc);
    push_bytes(word, &mut path)?;
    Ok(goal_at(path))
}
