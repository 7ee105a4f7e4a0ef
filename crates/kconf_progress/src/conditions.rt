ghost use Rattle.std.specs.Prelude.{◌≡◌, ◌++◌, IfOk, OnOk, map};
ghost use Rattle.kconf_entries.specs.Joined as spec;
ghost use Rattle.kconf_progress.specs.Conditions as inner;

use kconf_entries::{DefaultOf, Expr, SelectOf, joined, push_each, push_members};
use std::alloc::{AllocError, Global};
use ut_logic::{Sequence, Text};

/// Appends what conditions bring to a joined one.
pub fn add_all_members(
    alloc: Global,
    list: &mut Vec<Expr>,
    conditions: &[Expr],
) -> Result<(), AllocError>
    ensures { OnOk result (list.new.items ≡ list.old.items ++ spec.members_of_all conditions.now) }
{
    for condition in conditions {
        push_members(alloc, list, condition)?;
    }
    Ok(())
}

/// The condition of a place whose conditions have these members.
pub fn place_condition(alloc: Global, place: &[Expr]) -> Result<Expr, AllocError>
    ensures { IfOk result (λ e. e ≡ spec.joined place.now) }
{
    let mut list = Vec::with_capacity(alloc, place.len())?;
    push_each(alloc, &mut list, place)?;
    Ok(joined(list))
}

/// A full condition: the own one, and those of a place with these members.
fn full_condition(alloc: Global, place: &[Expr], own: &Expr) -> Result<Expr, AllocError>
    ensures { IfOk result (λ e. e ≡ inner.full_of place.now own.now) }
{
    let mut list = Vec::with_capacity(alloc, place.len())?;
    push_members(alloc, &mut list, own)?;
    push_each(alloc, &mut list, place)?;
    Ok(joined(list))
}

/// Full conditions for conditions of their own.
pub fn full_conditions(
    alloc: Global,
    place: &[Expr],
    own: &[Expr],
) -> Result<Sequence<Expr>, AllocError>
    ensures { IfOk result (λ s. s ≡ map (inner.full_of place.now) own.now) }
{
    let mut list = Vec::with_capacity(alloc, own.len())?;
    for condition in own {
        list.push(full_condition(alloc, place, condition)?)?;
    }
    Ok(Sequence::from_vec(list))
}

/// Defaults with their full conditions.
pub fn full_defaults(
    alloc: Global,
    place: &[Expr],
    own: &[DefaultOf],
) -> Result<Sequence<DefaultOf>, AllocError>
    ensures { IfOk result (λ s. s ≡ map (inner.full_default_of place.now) own.now) }
{
    let mut list = Vec::with_capacity(alloc, own.len())?;
    for default in own {
        list.push(full_default(alloc, place, default)?)?;
    }
    Ok(Sequence::from_vec(list))
}

/// A default whose condition holds those of its place.
fn full_default(alloc: Global, place: &[Expr], own: &DefaultOf) -> Result<DefaultOf, AllocError>
    ensures { IfOk result (λ d. d ≡ inner.full_default_of place.now own.now) }
{
    let value = own.value.copy(alloc)?;
    let cond = full_condition(alloc, place, &own.cond)?;
    let text = copy_text(alloc, &own.text)?;
    Ok(DefaultOf { value, cond, text })
}

/// A copy of a default's text, if it has one.
fn copy_text(alloc: Global, text: &Option<Text>) -> Result<Option<Text>, AllocError>
    ensures { IfOk result (λ t. t ≡ text.now) }
{
    match text {
        Some(text) => Ok(Some(text.copy(alloc)?)),
        None => Ok(None),
    }
}

/// Selects, or the defaults of a choice, with their full conditions.
pub fn full_selects(
    alloc: Global,
    place: &[Expr],
    own: &[SelectOf],
) -> Result<Sequence<SelectOf>, AllocError>
    ensures { IfOk result (λ s. s ≡ map (inner.full_select_of place.now) own.now) }
{
    let mut list = Vec::with_capacity(alloc, own.len())?;
    for select in own {
        list.push(full_select(alloc, place, select)?)?;
    }
    Ok(Sequence::from_vec(list))
}

/// A select whose condition holds those of its place.
fn full_select(alloc: Global, place: &[Expr], own: &SelectOf) -> Result<SelectOf, AllocError>
    ensures { IfOk result (λ s. s ≡ inner.full_select_of place.now own.now) }
{
    let target = own.target.copy(alloc)?;
    let cond = full_condition(alloc, place, &own.cond)?;
    Ok(SelectOf { target, cond })
}
