ghost use Rattle.std.specs.Prelude.{◌≡◌, IfOk};
ghost use Rattle.kconf_progress.specs.OpenEntries as spec;

use crate::conditions::{
    add_all_members, full_conditions, full_defaults, full_selects, place_condition,
};
use crate::open_entries::{ChoiceLines, ConfigLines};
use crate::openers::{OpenLine, add_visible, inherited};
use kconf_entries::{ChoiceEntry, ConfigEntry};
use std::alloc::{AllocError, Global};

/// The entry of a config among these enclosing lines.
#[tactic(auto, using(crate::proofs::MemberLaws::members_append, crate::proofs::MemberLaws::place_visible))]
pub fn config_entry(
    alloc: Global,
    openers: &[OpenLine],
    choice: Option<u32>,
    lines: ConfigLines,
) -> Result<ConfigEntry, AllocError>
    ensures { IfOk result (λ e. e ≡ spec.config_entry openers.now choice lines) }
{
    let mut place = inherited(alloc, openers)?;
    add_all_members(alloc, &mut place, lines.depends.as_slice())?;
    let depends = place_condition(alloc, &place)?;
    let defaults = full_defaults(alloc, &place, lines.defaults.as_slice())?;
    let selects = full_selects(alloc, &place, lines.selects.as_slice())?;
    let implies = full_selects(alloc, &place, lines.implies.as_slice())?;
    add_visible(alloc, &mut place, openers)?;
    let prompts = full_conditions(alloc, &place, lines.prompts.as_slice())?;
    Ok(ConfigEntry {
        name: lines.name,
        kind: lines.kind,
        depends,
        prompts,
        defaults,
        selects,
        implies,
        modules: lines.modules,
        choice,
    })
}

/// The entry of a choice, whose opener is the innermost of these enclosing lines.
#[tactic(auto, using(crate::proofs::MemberLaws::members_append))]
pub fn choice_entry(
    alloc: Global,
    openers: &[OpenLine],
    lines: ChoiceLines,
) -> Result<ChoiceEntry, AllocError>
    ensures { IfOk result (λ e. e ≡ spec.choice_entry openers.now lines) }
{
    let mut place = inherited(alloc, openers)?;
    let defaults = full_selects(alloc, &place, lines.defaults.as_slice())?;
    add_visible(alloc, &mut place, openers)?;
    let prompts = full_conditions(alloc, &place, lines.prompts.as_slice())?;
    Ok(ChoiceEntry {
        kind: lines.kind,
        optional: lines.optional,
        prompts,
        defaults,
    })
}
