ghost use Rattle.std.specs.Prelude.{◌≡◌, ◌<◌, ◌≤◌, length, slice_index_or, All, IfSome, []};
ghost use Rattle.ut_text.specs.Text.{text_eq};
ghost use Rattle.kconf_tree.specs.Shape as spec;
ghost use Rattle.kconf_tree.specs.Apart.{AreApart, names_in};
ghost use Rattle.kconf_tree.specs.WellMade.{IsOrderedTree};
ghost use Rattle.kconf_tree.specs.Limits.{max_symbols};

mod building;
mod looking_up;
mod referring;
mod undeclared;

use crate::links::Links;
use crate::parts::Parts;
use crate::shape::{Choice, Symbol};
use kconf_entries::{Kind, SelectOf};
use std::marker::Model;
use ut_logic::Node;

/// The symbols and choices of a Kconfig text, numbered from 0 in order of first declaration, with their
/// properties, and an order in which each stands after all that it refers to.
#[derive(Drop)]
pub struct Tree {
    parts: Parts,
    links: Links,
    order: Vec<Node>,
}

impl Model for Tree {
    ghost use Rattle.kconf_tree.specs.OrderedTree.{OrderedTree};
    ghost use Rattle.kconf_entries.specs.contracts.expr.Expr as e;
    ghost use Rattle.std.specs.Coded.{codes};

    ghost Value = { OrderedTree };

    ghost coded = { Prim.hlevel (codes, e.the_row.coded) };

    ghost use Rattle.kconf_tree.specs.TreeInside.{ordered_tree_of, IsWhole};

    ghost view = { ordered_tree_of };

    ghost invariant = { IsWhole };
}

impl Tree {
    /// The number of symbols.
    pub fn symbols(&self) -> u32
        ensures count { result ≡ length self.now.shape.symbols }
        ensures few { length self.now.shape.symbols ≤ max_symbols }
        ensures apart { AreApart text_eq (names_in self.now.shape.symbols) }
    {
        self.parts.symbols()
    }

    /// The number of choices.
    pub fn choices(&self) -> u32
        ensures { result ≡ length self.now.shape.choices }
    {
        self.parts.choices()
    }

    /// The number of outer conditions.
    pub fn outers(&self) -> u64
        ensures { result ≡ length self.now.shape.outers }
    {
        self.parts.outers()
    }

    /// The name of a symbol.
    pub fn name(&self, sym: u32) -> &str
        requires { sym < length self.now.shape.symbols }
        ensures { result.now ≡ (spec.symbol_at self.now.shape sym).name }
    {
        self.parts.symbol_at(sym).name.text()
    }

    /// The first type of a symbol.
    pub fn kind(&self, sym: u32) -> Kind
        requires { sym < length self.now.shape.symbols }
        ensures { result ≡ (spec.symbol_at self.now.shape sym).kind }
    {
        self.parts.symbol_at(sym).kind
    }

    /// The choice that a symbol is a member of, if any.
    pub fn member_of(&self, sym: u32) -> Option<u32>
        requires { sym < length self.now.shape.symbols }
        ensures value { result ≡ (spec.symbol_at self.now.shape sym).member_of }
        ensures within { IfSome result (λ i. i < length self.now.shape.choices) }
    {
        self.parts.symbol_at(sym).member_of
    }

    /// The text of an outer condition.
    pub fn outer(&self, n: u64) -> &str
        requires { n < length self.now.shape.outers }
        ensures { result.now ≡ slice_index_or self.now.shape.outers n [] }
    {
        self.parts.outer(n)
    }

    /// The number of the symbol with this name, if any.
    pub fn symbol(&self, name: &str) -> Option<u32>
        ensures number { result ≡ spec.number_of self.now.shape name.now }
        ensures within { IfSome result (λ k. k < length self.now.shape.symbols) }
    {
        self.parts.symbol(name)
    }

    /// The number of the modules symbol, if any.
    pub fn modules(&self) -> Option<u32>
        ensures value { result ≡ self.now.shape.modules }
        ensures within { IfSome result (λ k. k < length self.now.shape.symbols) }
    {
        self.parts.modules()
    }

    /// Each symbol and choice after all that it refers to, members beside their choice.
    pub fn order(&self) -> &[Node]
        ensures list { result.now ≡ self.now.order }
        ensures tree { IsOrderedTree self.now }
    {
        self.order.as_slice()
    }

    /// What a symbol implies.
    pub fn implies(&self, sym: u32) -> &[SelectOf]
        requires { sym < length self.now.shape.symbols }
        ensures { result.now ≡ (spec.symbol_at self.now.shape sym).implies }
    {
        self.parts.symbol_at(sym).implies.as_slice()
    }

    /// The type of a choice.
    pub fn choice_kind(&self, choice: u32) -> Kind
        requires { choice < length self.now.shape.choices }
        ensures { result ≡ (spec.choice_at self.now.shape choice).kind }
    {
        self.parts.choice_at(choice).kind
    }

    /// The symbol with this number, with all its properties.
    pub fn symbol_at(&self, sym: u32) -> &Symbol
        requires { sym < length self.now.shape.symbols }
        ensures value { result.now ≡ spec.symbol_at self.now.shape sym }
        ensures choice { IfSome result.now.member_of (λ i. i < length self.now.shape.choices) }
    {
        self.parts.symbol_at(sym)
    }

    /// The choice with this number, with its members and all its properties.
    pub fn choice_at(&self, choice: u32) -> &Choice
        requires { choice < length self.now.shape.choices }
        ensures value { result.now ≡ spec.choice_at self.now.shape choice }
        ensures members { All (λ k. k < length self.now.shape.symbols) result.now.members }
    {
        self.parts.choice_at(choice)
    }
}
