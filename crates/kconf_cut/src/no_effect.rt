ghost use Rattle.std.specs.Prelude.{◌≡◌};
ghost use Rattle.kconf_cut.specs.Words as spec;
ghost use Rattle.kconf_cut.specs.Reading as inner;

use crate::calls::begins_call;
use crate::parts::{Run, first_part, plain_len};
use ut_text::unblanked;

/// Whether the sign of an assignment stands at the front.
fn begins_assigning(text: &[u8]) -> bool
    ensures { result ≡ spec.begins_assigning text.now }
{
    text.starts_with(b"=".as_slice())
        || text.starts_with(b":=".as_slice())
        || text.starts_with(b"+=".as_slice())
}

/// What stands after the parts of an unquoted word at the front.
fn after_parts(text: &[u8]) -> &[u8]
    ensures { result.now ≡ inner.after_unquoted text.now }
{
    let (_, others) = text.split_at(plain_len(Run::Unquoted, text));
    let mut rest = others;
    'parts: while let Some((_, after)) = first_part(Run::Unquoted, rest) {
        rest = after;
    }
    rest
}

/// Whether the sign of an assignment stands after the first word.
#[tactic(auto, using(crate::proofs::PartLemmas::assigned_some, crate::proofs::PartLemmas::assigned_none))]
fn is_assigned(text: &[u8]) -> bool
    ensures { result ≡ inner.is_assigned_at text.now }
{
    match first_part(Run::Unquoted, text) {
        Some((_, after)) => begins_assigning(unblanked(after_parts(after))),
        None => false,
    }
}

/// Whether the line is a macro call or an assignment.
pub fn has_no_effect(line: &[u8]) -> bool
    ensures { result ≡ spec.has_no_effect line.now }
{
    let front = unblanked(line);
    begins_call(front) || is_assigned(front)
}
