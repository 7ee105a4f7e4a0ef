ghost use Rattle.std.specs.Prelude.{◌≡◌, ◌<◌, ◌≤◌, ◌+◌, ◌-◌, ◌^◌, ◌∷◌, [], IfOk, IfSome, length, take, drop, true};
ghost use Rattle.std.specs.List.{list_all};
ghost use Rattle.std.specs.Option.{option_copied};
ghost use Rattle.ut_text.specs.ByteClasses.{is_name_byte};
ghost use Rattle.kbuild_text.specs.Variables as spec;

use crate::marks::{Mark, after_front, are, has_call, push_bytes};
use kbuild_paths::Step;
use sqlite_items::Items;
use std::alloc::{AllocError, Global};
use ut_text::{Text, are_name_bytes};

/// What the words of a variable are.
#[derive(Debug, Drop)]
pub enum Role {
    /// Goals: objects, and folders where they are taken.
    Goals { folders: bool },

    /// Parts of the object with this name.
    Parts { of: Items<u8> },
}

/// What the words of a variable are, and its own step, if it has one.
#[derive(Debug, Drop)]
pub struct Meaning {
    pub role: Role,
    pub step: Option<Step>,
}

/// The ending of a variable's name.
#[derive(Drop)]
enum Ending {
    /// It gives no step.
    Always,
    /// It gives this step.
    When(Step),
    /// A variable with this ending is without effect.
    Other,
}

fn has_symbol_brackets(text: &[u8]) -> bool
    ensures { result ≡ spec.has_symbol_brackets text.now }
{
    (text.starts_with(b"$(CONFIG_") && text.ends_with(b")"))
        || (text.starts_with(b"${CONFIG_") && text.ends_with(b"}"))
}

/// The name of the symbol that a macro call is of.
fn symbol(text: &[u8]) -> Option<&[u8]>
    ensures value { option_copied result ≡ spec.symbol_of text.now }
    ensures name { IfSome result (λ name. list_all is_name_byte name.now ≡ true) }
{
    if text.len() <= 10 || !has_symbol_brackets(text) {
        return None;
    }
    let name = &text[9..text.len() - 1];
    if are_name_bytes(name) {
        Some(name)
    } else {
        None
    }
}

/// The step of an ending with a macro call.
fn call_step(alloc: Global, text: &[u8]) -> Result<Step, AllocError>
    ensures { IfOk result (λ step. step ≡ spec.call_step text.now) }
{
    match symbol(text) {
        Some(name) => Ok(Step::On(Text::of_name(alloc, name)?)),
        None => Ok(Step::Free(Text::of_bytes(alloc, text)?)),
    }
}

/// What an ending gives.
fn read_ending(alloc: Global, marks: &[Mark]) -> Result<Ending, AllocError>
    ensures { IfOk result (λ ending. spec.ended ending ≡ spec.ending_of marks.now) }
{
    if are(marks, b"y") || are(marks, b"m") {
        return Ok(Ending::Always);
    }
    if !has_call(marks) {
        return Ok(Ending::Other);
    }
    let mut text = Vec::new(alloc);
    push_bytes(marks, &mut text)?;
    Ok(Ending::When(call_step(alloc, text.as_slice())?))
}

/// A role with the step of an ending.
fn with_ending(role: Role, ending: Ending) -> Option<Meaning>
    ensures { result ≡ spec.with_ending role (spec.ended ending) }
{
    match ending {
        Ending::Always => Some(Meaning { role, step: None }),
        Ending::When(step) => Some(Meaning {
            role,
            step: Some(step),
        }),
        Ending::Other => None,
    }
}

/// `-` outside of macro calls.
fn is_dash(mark: Mark) -> bool
    ensures { result ≡ spec.is_dash mark }
{
    !mark.in_call && mark.byte == b'-'
}

/// The place after the last `-` of a variable so far, of which this is the mark at `i`.
fn dash_end(end: usize, i: usize, mark: Mark) -> usize
    requires { i < 2 ^ 63 }
    ensures { result ≡ spec.dash_end end i mark }
{
    if is_dash(mark) { i + 1 } else { end }
}

/// The number of marks up to and with the last `-` outside of macro calls, or 0.
fn dash_len(variable: &[Mark]) -> usize
    ensures value { result ≡ spec.dash_len variable.now }
    ensures within { result ≤ length variable.now }
{
    let mut end = 0;
    for (i, mark) in variable.iter().enumerate() {
        end = dash_end(end, i, *mark);
    }
    end
}

/// What a variable means that begins with neither `obj-` nor `lib-`.
fn parts_meaning(alloc: Global, variable: &[Mark]) -> Result<Option<Meaning>, AllocError>
    ensures { IfOk result (λ meaning. meaning ≡ spec.parts_meaning variable.now) }
{
    let end = dash_len(variable);
    if end == 0 {
        return Ok(None);
    }
    let mut of = Vec::new(alloc);
    push_bytes(&variable[..end - 1], &mut of)?;
    let role = Role::Parts {
        of: Items::from_vec(of),
    };
    let tail = &variable[end..];
    if are(tail, b"objs") {
        return Ok(Some(Meaning { role, step: None }));
    }
    Ok(with_ending(role, read_ending(alloc, tail)?))
}

/// What a variable means, where it has an effect.
pub fn read_meaning(alloc: Global, variable: &[Mark]) -> Result<Option<Meaning>, AllocError>
    ensures { IfOk result (λ meaning. meaning ≡ spec.meaning_of variable.now) }
{
    if let Some(tail) = after_front(variable, b"obj-") {
        let role = Role::Goals { folders: true };
        return Ok(with_ending(role, read_ending(alloc, tail)?));
    }
    if let Some(tail) = after_front(variable, b"lib-") {
        let role = Role::Goals { folders: false };
        return Ok(with_ending(role, read_ending(alloc, tail)?));
    }
    parts_meaning(alloc, variable)
}
