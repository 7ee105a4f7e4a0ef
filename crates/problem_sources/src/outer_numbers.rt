//! The numbers of outer conditions: first those of the ground, then more of them.

ghost use Rattle.std.specs.Prelude.{◌≡◌, ◌<◌, ◌≤◌, ◌^◌, ◌+◌, ◌++◌, [], IfOk, length, position, slice_index_or};
ghost use Rattle.std.specs.List.{position_or_len};
ghost use Rattle.ut_text.specs.Text.{text_eq};
ghost use Rattle.ut_case.specs.Numbering.{basis_outers};
ghost use Rattle.ut_case.specs.Numbering as spec;
ghost use Rattle.problem_sources.specs.Grounds.{basis_of};

use crate::ground::Ground;
use indexmap::IndexSet;
use std::alloc::{AllocError, Global};
use ut_logic::Text;

/// The outer condition of a free step with this text.
pub fn kbuild_text(alloc: Global, text: &Text) -> Result<Text, AllocError>
    ensures { IfOk result (λ t. t ≡ spec.kbuild_text text.now) }
{
    let mut whole = String::from_str(alloc, "kbuild ")?;
    whole.push_str(text.text())?;
    Text::new(alloc, whole.as_str())
}

/// How many outer conditions the ground has.
pub fn first_outers(ground: &Ground) -> u64
    ensures { result ≡ length (basis_outers (basis_of ground.now)) }
{
    match ground {
        Ground::Tree(tree) => tree.outers(),
        Ground::Rules(_) => 0,
    }
}

/// The text of an outer condition that the ground has.
pub fn first_outer(ground: &Ground, n: u64) -> &str
    requires { n < length (basis_outers (basis_of ground.now)) }
    ensures { result.now ≡ slice_index_or (basis_outers (basis_of ground.now)) n [] }
{
    match ground {
        Ground::Tree(tree) => tree.outer(n),
        Ground::Rules(_) => "",
    }
}

/// The number of an outer condition that the ground has.
pub fn first_number(ground: &Ground, text: &Text) -> Option<u64>
    ensures { result ≡ position (λ o. text_eq o text.now) (basis_outers (basis_of ground.now)) }
{
    match ground {
        Ground::Tree(tree) => tree.outer_number(text.text()),
        Ground::Rules(_) => None,
    }
}

/// The place of a text, or that of the end where it has none.
fn place_in(set: &IndexSet<Text>, text: &Text) -> u64
    ensures within { result ≤ length set.now.keys }
    ensures place { result ≡ position_or_len (text_eq text.now) set.now.keys }
{
    match set.get_index_of(text) {
        Some(place) => place as u64,
        None => set.len() as u64,
    }
}

/// The number of the outer condition of a free step with this text.
pub fn kbuild_place(
    alloc: Global,
    ground: &Ground,
    more: &IndexSet<Text>,
    text: &Text,
) -> Result<u64, AllocError>
    requires { length (basis_outers (basis_of ground.now)) + length more.now.keys < 2 ^ 64 }
    ensures { IfOk result (λ k. k ≡ position_or_len (text_eq (spec.kbuild_text text.now)) (basis_outers (basis_of ground.now) ++ more.now.keys)) }
{
    let text = kbuild_text(alloc, text)?;
    match first_number(ground, &text) {
        Some(number) => Ok(number),
        None => Ok(first_outers(ground) + place_in(more, &text)),
    }
}
