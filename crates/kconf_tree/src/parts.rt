ghost use Rattle.std.specs.Prelude.{◌≡◌, ◌<◌, ◌≤◌, length, slice_index_or, All, IfSome, []};
ghost use Rattle.ut_text.specs.Text.{text_eq};
ghost use Rattle.kconf_tree.specs.Shape as spec;
ghost use Rattle.kconf_tree.specs.Apart.{AreApart, names_in};
ghost use Rattle.kconf_tree.specs.Limits.{each_past, max_symbols};

mod gathering;
mod ordering;
mod outer_numbers;

use crate::limits::{Passed, past_each};
use crate::outer_text::OuterText;
use crate::shape::{Choice, Symbol};
use crate::types::Types;
use indexmap::IndexSet;
use std::marker::Model;

/// The symbols and choices of a Kconfig text, numbered from 0 in order of first declaration, with their
/// properties, and its outer conditions: a tree that has no order yet.
#[derive(Drop)]
pub struct Parts {
    types: Types,
    symbols: Vec<Symbol>,
    choices: Vec<Choice>,
    outers: IndexSet<OuterText>,
    modules: Option<u32>,
}

impl Model for Parts {
    ghost use Rattle.kconf_tree.specs.Shape.{Shape};
    ghost use Rattle.kconf_entries.specs.contracts.expr.Expr as e;
    ghost use Rattle.std.specs.Coded.{codes};

    ghost Value = { Shape };

    ghost coded = { Prim.hlevel (codes, e.the_row.coded) };

    ghost use Rattle.kconf_tree.specs.PartsInside.{shape_of, IsKept};

    ghost view = { shape_of };

    ghost invariant = { IsKept };
}

impl Parts {
    /// The number of symbols.
    pub fn symbols(&self) -> u32
        ensures count { result ≡ length self.now.symbols }
        ensures few { length self.now.symbols ≤ max_symbols }
        ensures apart { AreApart text_eq (names_in self.now.symbols) }
    {
        self.symbols.len() as u32
    }

    /// The members of a choice, or else the defaults of a symbol, that pass their limit.
    pub fn passed(&self) -> Option<Passed>
        ensures { result ≡ each_past self.now.choices self.now.symbols }
    {
        past_each(self.choices.as_slice(), self.symbols.as_slice())
    }

    /// The number of choices.
    pub fn choices(&self) -> u32
        ensures { result ≡ length self.now.choices }
    {
        self.choices.len() as u32
    }

    /// The number of outer conditions.
    pub fn outers(&self) -> u64
        ensures { result ≡ length self.now.outers }
    {
        self.outers.len() as u64
    }

    /// The symbol with this number.
    pub fn symbol_at(&self, sym: u32) -> &Symbol
        requires { sym < length self.now.symbols }
        ensures value { result.now ≡ spec.symbol_at self.now sym }
        ensures choice { IfSome result.now.member_of (λ i. i < length self.now.choices) }
    {
        &self.symbols[sym as usize]
    }

    /// The choice with this number.
    pub fn choice_at(&self, choice: u32) -> &Choice
        requires { choice < length self.now.choices }
        ensures value { result.now ≡ spec.choice_at self.now choice }
        ensures members { All (λ k. k < length self.now.symbols) result.now.members }
    {
        &self.choices[choice as usize]
    }

    /// The text of an outer condition.
    pub fn outer(&self, n: u64) -> &str
        requires { n < length self.now.outers }
        ensures { result.now ≡ slice_index_or self.now.outers n [] }
    {
        match self.outers.get_index(n as usize) {
            Some(text) => text.text(),
            None => unreachable!(),
        }
    }

    /// The number of the symbol with this name, if any.
    pub fn symbol(&self, name: &str) -> Option<u32>
        ensures number { result ≡ spec.number_of self.now name.now }
        ensures within { IfSome result (λ k. k < length self.now.symbols) }
    {
        let count = self.symbols.len();
        match self.types.number_of_text(name) {
            Some(number) => {
                prove!(number < count);
                Some(number as u32)
            }
            None => None,
        }
    }

    /// The number of the modules symbol, if any.
    pub fn modules(&self) -> Option<u32>
        ensures value { result ≡ self.now.modules }
        ensures within { IfSome result (λ k. k < length self.now.symbols) }
    {
        self.modules
    }
}
