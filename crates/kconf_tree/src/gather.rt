ghost use Rattle.std.specs.Prelude.{◌≡◌, ◌++◌, length, IfOk, OnOk};
ghost use Rattle.kconf_tree.specs.Gathered as spec;
ghost use Rattle.kconf_tree.specs.Shape.{number_of};
ghost use Rattle.kconf_tree.specs.Types.{types_of, typed};
ghost use Rattle.kconf_tree.specs.Gathering.{with_entry, with_entry_at};

use crate::shape::Symbol;
use crate::types::{Types, is_text_or_number};
use kconf_entries::{ConfigEntry, Kind};
use sqlite_items::Items;
use std::alloc::{AllocError, Global};

/// The choice that a symbol of this kind is a member of, where an entry of the symbol stands in that choice.
fn member_choice(kind: Kind, choice: Option<u32>) -> Option<u32>
    ensures { result ≡ spec.member_choice kind choice }
{
    if is_text_or_number(kind) {
        None
    } else {
        choice
    }
}

/// Moves items to the end of a list. An empty list takes them without copying.
fn join<T: Drop>(list: &mut Items<T>, more: Items<T>) -> Result<(), AllocError>
    ensures { OnOk result (list.new ≡ list.old ++ more) }
{
    if list.is_empty() {
        *list = more;
        Ok(())
    } else {
        list.append(more)
    }
}

/// Moves the properties of one more entry into its symbol.
fn add_entry(symbol: &mut Symbol, config: ConfigEntry) -> Result<(), AllocError>
    ensures { OnOk result (symbol.new ≡ with_entry symbol.old config) }
{
    let ConfigEntry {
        name: _,
        kind: _,
        depends,
        prompts,
        defaults,
        selects,
        implies,
        modules: _,
        choice,
    } = config;
    if symbol.member_of.is_none() {
        symbol.member_of = member_choice(symbol.kind, choice);
    }
    symbol.places.push(depends)?;
    join(&mut symbol.prompts, Items::from_vec(prompts.into_vec()))?;
    join(&mut symbol.defaults, Items::from_vec(defaults.into_vec()))?;
    join(&mut symbol.selects, Items::from_vec(selects.into_vec()))?;
    join(&mut symbol.implies, Items::from_vec(implies.into_vec()))
}

/// The declared symbols, none with a property yet.
fn bare_symbols(alloc: Global, types: &Types) -> Result<Vec<Symbol>, AllocError>
    ensures { IfOk result (λ ss. ss.items ≡ (typed types.now).symbols) }
{
    let mut symbols = Vec::with_capacity(alloc, types.len())?;
    for number in 0..types.len() {
        symbols.push(types.bare_symbol(alloc, number)?)?;
    }
    Ok(symbols)
}

/// Moves the properties of one more entry to its symbol.
fn add(types: &Types, symbols: &mut Vec<Symbol>, config: ConfigEntry) -> Result<(), AllocError>
    requires { length symbols.old.items ≡ length types.now }
    ensures { OnOk result (symbols.new.items ≡ with_entry_at symbols.old.items (number_of (typed types.now) config.name) config) }
{
    if let Some(number) = types.number(&config.name) {
        add_entry(&mut symbols[number], config)?;
    }
    Ok(())
}

/// The symbols of the entries, with their properties moved into them. The only error is out of memory.
pub fn symbols(
    alloc: Global,
    types: &Types,
    configs: Vec<ConfigEntry>,
) -> Result<Vec<Symbol>, AllocError>
    requires { types.now ≡ types_of configs.items }
    ensures { IfOk result (λ ss. ss.items ≡ spec.symbols_of configs.items) }
{
    let mut symbols = bare_symbols(alloc, types)?;
    for config in configs {
        add(types, &mut symbols, config)?;
    }
    Ok(symbols)
}
