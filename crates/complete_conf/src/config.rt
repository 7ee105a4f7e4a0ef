ghost use Rattle.std.specs.Prelude.{◌≡◌, ◌<◌, IfOk, false, length, replicate, slice_index_or};
ghost use Rattle.ut_logic.specs.Trit.{rank};
ghost use Rattle.complete_conf.specs.Config.{all_n, by_lists, configuration_of, FitsTree, KeepsLengths};
ghost use Rattle.complete_conf.specs.Completion.{with_mode, with_outer, with_value};
ghost use Rattle.complete_conf.specs.Parts.{part_of};

use kconf_tree::Tree;
use sqlite_items::Items;
use std::alloc::{AllocError, Global};
use ut_logic::Trit;

/// A value for each symbol of a tree, a mode for each choice, and a truth for each outer condition, by
/// their numbers.
#[derive(Drop)]
pub struct Config {
    pub values: Items<Trit>,
    pub modes: Items<Trit>,
    pub outers: Items<bool>,
}

/// Which symbols and choices of a tree are known, by their numbers.
#[derive(Drop)]
pub struct Known {
    pub syms: Items<bool>,
    pub choices: Items<bool>,
}

/// The value with this number, or n past the last one.
fn trit_at(list: &[Trit], number: u32) -> Trit
    ensures { result ≡ slice_index_or list.now number Trit.N }
{
    let number = number as usize;
    if number < list.len() {
        list[number]
    } else {
        Trit::N
    }
}

/// So many n's.
fn all_n(alloc: Global, count: u32) -> Result<Items<Trit>, AllocError>
    ensures { IfOk result (λ xs. xs ≡ replicate count Trit.N) }
{
    let mut list = Vec::with_capacity(alloc, count as usize)?;
    for _number in 0..count {
        list.push(Trit::N)?;
    }
    Ok(Items::from_vec(list))
}

/// So many truths that are false.
fn all_false(alloc: Global, count: u64) -> Result<Items<bool>, AllocError>
    ensures { IfOk result (λ xs. xs ≡ replicate count false) }
{
    let mut list = Vec::with_capacity(alloc, count as usize)?;
    for _number in 0..count {
        list.push(false)?;
    }
    Ok(Items::from_vec(list))
}

impl Config {
    /// The value of a symbol.
    pub fn value(&self, sym: u32) -> Trit
        ensures { rank result ≡ (by_lists self.now).value sym }
    {
        trit_at(self.values.as_slice(), sym)
    }

    /// The mode of a choice.
    pub fn mode(&self, choice: u32) -> Trit
        ensures { rank result ≡ (by_lists self.now).mode choice }
    {
        trit_at(self.modes.as_slice(), choice)
    }

    /// The truth of an outer condition.
    pub fn outer(&self, number: u64) -> bool
        ensures { result ≡ (by_lists self.now).outer number }
    {
        let number = number as usize;
        number < self.outers.len() && self.outers.as_slice()[number]
    }
}

impl Config {
    /// Sets the value of a symbol.
    pub fn set_value(&mut self, sym: u32, value: Trit)
        requires { sym < length self.old.values }
        ensures value { by_lists self.new ≡ with_value (by_lists self.old) sym (rank value) }
        ensures lengths { KeepsLengths self.old self.new }
    {
        self.values.set(sym as usize, value);
    }

    /// Sets the mode of a choice.
    pub fn set_mode(&mut self, choice: u32, mode: Trit)
        requires { choice < length self.old.modes }
        ensures mode { by_lists self.new ≡ with_mode (by_lists self.old) choice (rank mode) }
        ensures lengths { KeepsLengths self.old self.new }
    {
        self.modes.set(choice as usize, mode);
    }
}

impl Config {
    /// The configuration in which all is n and no outer condition holds. The only error is out of memory.
    pub fn none(alloc: Global, tree: &Tree) -> Result<Config, AllocError>
        ensures none { IfOk result (λ c. configuration_of tree.now.shape c ≡ all_n) }
        ensures fits { IfOk result (FitsTree tree.now.shape) }
    {
        let values = all_n(alloc, tree.symbols())?;
        let modes = all_n(alloc, tree.choices())?;
        let outers = all_false(alloc, tree.outers())?;
        Ok(Config {
            values,
            modes,
            outers,
        })
    }

    /// Sets the truth of an outer condition.
    pub fn set_outer(&mut self, number: u64, value: bool)
        requires { number < length self.old.outers }
        ensures outer { by_lists self.new ≡ with_outer (by_lists self.old) number value }
        ensures lengths { KeepsLengths self.old self.new }
    {
        self.outers.set(number as usize, value);
    }
}

impl Known {
    /// Whether a symbol is known.
    pub fn symbol(&self, sym: u32) -> bool
        ensures { result ≡ (part_of self.now).symbol sym }
    {
        let sym = sym as usize;
        sym < self.syms.len() && self.syms.as_slice()[sym]
    }

    /// Whether a choice is known.
    pub fn choice(&self, choice: u32) -> bool
        ensures { result ≡ (part_of self.now).choice choice }
    {
        let choice = choice as usize;
        choice < self.choices.len() && self.choices.as_slice()[choice]
    }
}
