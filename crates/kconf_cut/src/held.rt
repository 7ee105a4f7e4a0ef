ghost use Rattle.std.specs.Prelude.{◌≡◌, ◌++◌, IfOk, OnOk};
ghost use Rattle.kconf_cut.specs.Words as spec;
ghost use Rattle.kconf_cut.specs.Words.{Part};
ghost use Rattle.kconf_cut.specs.Reading as inner;

use crate::parts::{PartText, Run, first_part, plain_len};
use crate::values::Values;
use std::alloc::{AllocError, Global};

/// What is read of a word: its text, whether a macro call is left in it, and what stands after it.
#[derive(Drop)]
pub struct Held<'a> {
    pub text: Vec<u8>,
    pub has_call: bool,
    pub rest: &'a [u8],
}

/// Appends what a call stands for. The answer is whether it is left as it is.
fn push_call(vars: &Values<'_>, name: &[u8], text: &mut Vec<u8>) -> Result<bool, AllocError>
    ensures text { OnOk result (text.new.items ≡ text.old.items ++ spec.part_text vars.now (Part.Call name.now)) }
    ensures left { IfOk result (λ b. b ≡ spec.is_left vars.now (Part.Call name.now)) }
{
    match vars.get(name) {
        Some(value) => {
            text.extend_from_slice(value)?;
            Ok(false)
        }
        None => {
            text.extend_from_slice(b"$(".as_slice())?;
            text.extend_from_slice(name)?;
            text.push(b')')?;
            Ok(true)
        }
    }
}

/// Appends a part. The answer is whether a macro call is left in it.
fn push_part(vars: &Values<'_>, part: &PartText<'_>, text: &mut Vec<u8>) -> Result<bool, AllocError>
    ensures text { OnOk result (text.new.items ≡ text.old.items ++ spec.part_text vars.now (inner.part_shown part.now)) }
    ensures left { IfOk result (λ b. b ≡ spec.is_left vars.now (inner.part_shown part.now)) }
{
    match part {
        PartText::Call(name) => push_call(vars, *name, text),
        PartText::Byte(byte) => {
            text.push(*byte)?;
            Ok(false)
        }
    }
}

/// The parts of a word at the front.
pub fn read_parts<'t>(
    alloc: Global,
    vars: &Values<'_>,
    run: Run,
    text: &'t [u8],
) -> Result<Held<'t>, AllocError>
    ensures { IfOk result (λ h. inner.held_shown h ≡ inner.held_of vars.now run text.now) }
{
    let (plain, others) = text.split_at(plain_len(run, text));
    let mut held = Vec::from_slice(alloc, plain)?;
    let mut has_call = false;
    let mut rest = others;
    'parts: while let Some((part, after)) = first_part(run, rest) {
        let is_left = push_part(vars, &part, &mut held)?;
        has_call |= is_left;
        rest = after;
    }
    Ok(Held {
        text: held,
        has_call,
        rest,
    })
}
