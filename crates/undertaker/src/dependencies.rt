ghost use Rattle.std.specs.Prelude.{◌≡◌, ◌<◌, [], ◌++◌, IfOk, OnOk, option_to_list, length, All};
ghost use Rattle.kconf_entries.specs.declared.expr.Expr.{out-Expr};
ghost use Rattle.undertaker.specs.Names.{number_among};
ghost use Rattle.undertaker.specs.Dependencies.{graph_of, needs_at, names_in, name_at, names_of_members, numbers_of, declared_in, rows_of};
ghost use Rattle.undertaker.specs.FirstEntries.{AreFirst};

use crate::names::Names;
use crate::numbers::put;
use kconf_entries::{ConfigEntry, Entries, Expr};
use sqlite_items::Items;
use std::alloc::{AllocError, Global};
use std::marker::Model;
use std::slice;
use ut_logic::Text;

/// The symbols of a tree of the first form by number: their names, and which symbols each depends on.
#[derive(Drop)]
pub struct Dependencies {
    names: Names,
    needs: Vec<Items<usize>>,
}

impl Model for Dependencies {
    ghost use Rattle.undertaker.specs.Dependencies.{Graph};

    ghost Value = { Graph };

    ghost use Rattle.undertaker.specs.Dependencies.{AreRows};

    ghost view = { λ d. record { names = d.names; needs = d.needs.items } };

    ghost invariant = { λ d. AreRows (record { names = d.names; needs = d.needs.items }) };
}

/// The names of the entries, each of which is new.
fn names_of(alloc: Global, configs: &[ConfigEntry]) -> Result<Names, AllocError>
    requires { AreFirst [] configs.now }
    ensures { IfOk result (λ names. names ≡ declared_in configs.now) }
{
    let mut names = Names::new(alloc);
    for config in configs {
        names.add(config.name.copy(alloc)?)?;
    }
    Ok(names)
}

/// The number of the name that a condition is, if it is one that is declared.
fn number_of(names: &Names, member: &Expr) -> Option<usize>
    ensures { option_to_list result ≡ numbers_of names.now (name_at (out-Expr member.now)) }
{
    match member {
        Expr::Name(name) => names.number(name),
        _ => None,
    }
}

/// The numbers of the symbols that are named.
fn numbers_of(alloc: Global, names: &Names, members: &[Expr]) -> Result<Items<usize>, AllocError>
    ensures { IfOk result (λ numbers. numbers ≡ numbers_of names.now (names_of_members members.now)) }
{
    let mut numbers = Vec::new(alloc);
    for member in members {
        put(&mut numbers, number_of(names, member))?;
    }
    Ok(Items::from_vec(numbers))
}

/// The numbers of the names in a joined condition.
fn numbers_in(alloc: Global, names: &Names, depends: &Expr) -> Result<Items<usize>, AllocError>
    ensures { IfOk result (λ numbers. numbers ≡ numbers_of names.now (names_in depends.now)) }
{
    match depends {
        Expr::And(members) => numbers_of(alloc, names, members.as_slice()),
        other => numbers_of(alloc, names, slice::from_ref(other)),
    }
}

impl Dependencies {
    /// The symbols that the entries declare. The only error is want of memory.
    pub fn of(alloc: Global, entries: &Entries) -> Result<Dependencies, AllocError>
        requires { AreFirst [] entries.now.configs }
        ensures { IfOk result (λ d. d ≡ graph_of entries.now.configs) }
    {
        let configs = entries.configs.as_slice();
        let names = names_of(alloc, configs)?;
        let needs = needs_of(alloc, &names, configs)?;
        Ok(Dependencies { names, needs })
    }

    /// The number of the symbol with this name.
    pub fn number(&self, name: &Text) -> Option<usize>
        ensures { result ≡ number_among self.now.names name.now }
    {
        self.names.number(name)
    }

    /// How many symbols there are.
    pub fn count(&self) -> usize
        ensures { result ≡ length self.now.needs }
    {
        self.needs.len()
    }

    /// The numbers of the symbols that a symbol depends on.
    pub fn needs(&self, symbol: usize) -> &[usize]
        requires { symbol < length self.now.needs }
        ensures row { result.now ≡ needs_at self.now symbol }
        ensures within { All (λ j. j < length self.now.needs) result.now }
    {
        let _needs = &self.needs;
        self.row(symbol)
    }

    /// What a symbol needs.
    fn row(&self, symbol: usize) -> &[usize]
        requires { symbol < length self.now.needs }
        ensures { result.now ≡ needs_at self.now symbol }
    {
        self.needs[symbol].as_slice()
    }
}

/// What each symbol needs.
fn needs_of(
    alloc: Global,
    names: &Names,
    configs: &[ConfigEntry],
) -> Result<Vec<Items<usize>>, AllocError>
    ensures { IfOk result (λ needs. needs.items ≡ rows_of names.now configs.now) }
{
    let mut needs = Vec::with_capacity(alloc, configs.len())?;
    for config in configs {
        needs.push(numbers_in(alloc, names, &config.depends)?)?;
    }
    Ok(needs)
}
