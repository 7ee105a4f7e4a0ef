ghost use Rattle.std.specs.Prelude.{◌≡◌, ◌<◌, ◌^◌, length, map, IfOk, IfSome, OnOk, All};
ghost use Rattle.kconf_tree.specs.Gathered as spec;
ghost use Rattle.kconf_tree.specs.Types.{types_of};
ghost use Rattle.kconf_tree.specs.Choosing as choosing;
ghost use Rattle.kconf_entries.specs.declared.entries.ChoiceEntry as declared;

use crate::shape::{Choice, Symbol};
use crate::types::{Types, is_text_or_number, is_untyped};
use kconf_entries::{ChoiceEntry, ConfigEntry, Kind};
use sqlite_items::Items;
use std::alloc::{AllocError, Global};

/// The types that the choices have by themselves.
fn own_kinds(alloc: Global, choices: &[ChoiceEntry]) -> Result<Vec<Kind>, AllocError>
    ensures { IfOk result (λ ks. ks.items ≡ map (λ (e : declared.ChoiceEntry). e.kind) choices.now) }
{
    let mut kinds = Vec::with_capacity(alloc, choices.len())?;
    for choice in choices {
        kinds.push(choice.kind)?;
    }
    Ok(kinds)
}

/// Whether a type is bool or tristate.
fn is_trit_type(kind: Kind) -> bool
    ensures { result ≡ spec.is_trit_type kind }
{
    match kind {
        Kind::Bool | Kind::Tristate => true,
        Kind::Str | Kind::Hex | Kind::Int | Kind::Untyped => false,
    }
}

/// Whether the entry types the choice that it stands in: it is bool or tristate, and its symbol has no text or
/// number.
fn has_type_line(types: &Types, config: &ConfigEntry) -> bool
    ensures { result ≡ choosing.has_type_line types.now config.now }
{
    match types.number(&config.name) {
        None => false,
        Some(number) => is_trit_type(config.kind) && !is_text_or_number(types.at(number).kind),
    }
}

/// Sets the type of the entry's choice to the entry's, where the choice has none yet.
fn type_by(kinds: &mut Vec<Kind>, types: &Types, config: &ConfigEntry)
    requires { IfSome config.now.choice (λ i. i < length kinds.old.items) }
    ensures { kinds.new.items ≡ choosing.typed_by types.now kinds.old.items config.now }
{
    if let Some(choice) = config.choice {
        let choice = choice as usize;
        if is_untyped(kinds[choice]) && has_type_line(types, config) {
            kinds[choice] = config.kind;
        }
    }
}

/// The types of the choices: each its own, else that of the first type line in it; untyped where it has
/// neither.
pub fn typed_kinds(
    alloc: Global,
    types: &Types,
    configs: &[ConfigEntry],
    choices: &[ChoiceEntry],
) -> Result<Vec<Kind>, AllocError>
    requires { All (λ c. IfSome c.choice (λ i. i < length choices.now)) configs.now }
    ensures { IfOk result (λ ks. ks.items ≡ choosing.typed_by_all types.now (map (λ (e : declared.ChoiceEntry). e.kind) choices.now) configs.now) }
{
    let mut kinds = own_kinds(alloc, choices)?;
    for config in configs {
        type_by(&mut kinds, types, config);
    }
    Ok(kinds)
}

/// The type of a choice where no line gives it one.
fn else_bool(kind: Kind) -> Kind
    ensures { result ≡ choosing.else_bool kind }
{
    if is_untyped(kind) { Kind::Bool } else { kind }
}

/// A choice without members.
fn bare_choice(alloc: Global, kind: Kind, entry: ChoiceEntry) -> Choice
    ensures { result ≡ choosing.bare_choice kind entry }
{
    let ChoiceEntry {
        kind: _,
        optional,
        prompts,
        defaults,
    } = entry;
    Choice {
        kind: else_bool(kind),
        members: Items::new(alloc),
        prompts: Items::from_vec(prompts.into_vec()),
        defaults: Items::from_vec(defaults.into_vec()),
        optional,
    }
}

/// The choices with these types, without members.
fn bare_choices(
    alloc: Global,
    kinds: &[Kind],
    entries: Vec<ChoiceEntry>,
) -> Result<Vec<Choice>, AllocError>
    requires { length kinds.now ≡ length entries.items }
    ensures choices { IfOk result (λ cs. cs.items ≡ choosing.bare_choices kinds.now entries.items) }
    ensures count { IfOk result (λ cs. length cs.items ≡ length entries.items) }
{
    let mut choices = Vec::with_capacity(alloc, entries.len())?;
    for entry in entries {
        let kind = kinds[choices.len()];
        choices.push(bare_choice(alloc, kind, entry))?;
    }
    Ok(choices)
}

/// Adds the symbol with this number to the choice that it is a member of.
fn add_member(
    choices: &mut Vec<Choice>,
    number: u32,
    member_of: Option<u32>,
) -> Result<(), AllocError>
    requires { IfSome member_of (λ i. i < length choices.old.items) }
    ensures { OnOk result (choices.new.items ≡ choosing.with_member choices.old.items number member_of) }
{
    match member_of {
        None => Ok(()),
        Some(choice) => choices[choice as usize].members.push(number),
    }
}

/// Adds the members to their choices.
fn add_members(choices: &mut Vec<Choice>, symbols: &[Symbol]) -> Result<(), AllocError>
    requires there { All (λ s. IfSome s.member_of (λ i. i < length choices.old.items)) symbols.now }
    requires fits { length symbols.now < 2 ^ 32 }
    ensures { OnOk result (choices.new.items ≡ choosing.with_members choices.old.items 0 symbols.now) }
{
    for (number, symbol) in symbols.iter().enumerate() {
        add_member(choices, number as u32, symbol.member_of)?;
    }
    Ok(())
}

/// The choices with these types and the members among the symbols. The only error is out of memory.
pub fn choices_with(
    alloc: Global,
    kinds: &[Kind],
    entries: Vec<ChoiceEntry>,
    symbols: &[Symbol],
) -> Result<Vec<Choice>, AllocError>
    requires count { length kinds.now ≡ length entries.items }
    requires there { All (λ s. IfSome s.member_of (λ i. i < length entries.items)) symbols.now }
    requires fits { length symbols.now < 2 ^ 32 }
    ensures { IfOk result (λ cs. cs.items ≡ choosing.with_members (choosing.bare_choices kinds.now entries.items) 0 symbols.now) }
{
    let mut choices = bare_choices(alloc, kinds, entries)?;
    add_members(&mut choices, symbols)?;
    Ok(choices)
}
