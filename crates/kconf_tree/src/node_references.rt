ghost use Rattle.std.specs.Prelude.{◌≡◌, ◌<◌, ◌++◌, length, map, All, OnOk};
ghost use Rattle.std.specs.List.{flat_map};
ghost use Rattle.kconf_tree.specs.Shape as shape;
ghost use Rattle.kconf_tree.specs.References as spec;
ghost use Rattle.kconf_tree.specs.Linking.{IsLinker, linker_of};
ghost use Rattle.kconf_tree.specs.Links.{AreLinks};

use crate::links::{Link, Links};
use crate::parts::Parts;
use crate::place::Place;
use crate::references::push;
use crate::shape::{Counts, Selector};
use kconf_entries::{Kind, SelectOf};
use sqlite_items::Items;
use std::alloc::AllocError;
use ut_logic::Text;

/// What a type counts as, by itself.
pub fn counts_alone(kind: Kind) -> Counts
    ensures { result ≡ shape.counts_alone kind }
{
    match kind {
        Kind::Bool => Counts::Bool,
        Kind::Tristate => Counts::Tristate,
        Kind::Str | Kind::Hex | Kind::Int | Kind::Untyped => Counts::Neither,
    }
}

/// What a member of this type counts as, in a choice of that type.
fn counts_in(choice: Counts, kind: Kind) -> Counts
    ensures { result ≡ shape.counts_in choice kind }
{
    match choice {
        Counts::Tristate => match kind {
            Kind::Bool => Counts::Bool,
            Kind::Tristate | Kind::Str | Kind::Hex | Kind::Int | Kind::Untyped => Counts::Tristate,
        },
        Counts::Bool | Counts::Neither => Counts::Bool,
    }
}

/// Whether the optional number is this one.
fn is_the(number: Option<u32>, wanted: u32) -> bool
    ensures { result ≡ shape.is_the number wanted }
{
    match number {
        None => false,
        Some(number) => number == wanted,
    }
}

impl Parts {
    /// What a symbol counts as by its own type, or by its choice.
    fn counts_by_type(&self, sym: u32) -> Counts
        requires { sym < length self.now.symbols }
        ensures { result ≡ shape.counts_with self.now (shape.symbol_at self.now sym).kind (shape.symbol_at self.now sym).member_of }
    {
        let symbol = self.symbol_at(sym);
        match symbol.member_of {
            None => counts_alone(symbol.kind),
            Some(choice) => counts_in(counts_alone(self.choice_at(choice).kind), symbol.kind),
        }
    }

    /// What a symbol counts as; the modules symbol is bool.
    pub fn counts_as(&self, sym: u32) -> Counts
        requires { sym < length self.now.symbols }
        ensures { result ≡ shape.counts_as self.now sym }
    {
        match self.modules() {
            None => self.counts_by_type(sym),
            Some(modules) => {
                if modules == sym {
                    Counts::Bool
                } else {
                    self.counts_by_type(sym)
                }
            }
        }
    }

    /// Adds the modules symbol for what counts as tristate.
    fn mention_type(&self, counts: Counts, row: &mut Items<u32>) -> Result<(), AllocError>
        requires { All (λ k. k < length self.now.symbols) row.old }
        ensures row { OnOk result (row.new ≡ row.old ++ spec.of_type self.now counts) }
        ensures within { OnOk result (All (λ k. k < length self.now.symbols) row.new) }
    {
        match counts {
            Counts::Tristate => push(row, self.modules()),
            Counts::Bool | Counts::Neither => Ok(()),
        }
    }

    /// Adds a symbol's own references: those of its prompts, defaults and type, and of its places where
    /// some symbol implies it.
    fn mention_own(&self, sym: u32, links: &Links, row: &mut Items<u32>) -> Result<(), AllocError>
        requires sym { sym < length self.now.symbols }
        requires links { AreLinks self.now links.now }
        requires within { All (λ k. k < length self.now.symbols) row.old }
        ensures row { OnOk result (row.new ≡ row.old ++ spec.own_references self.now sym) }
        ensures within { OnOk result (All (λ k. k < length self.now.symbols) row.new) }
    {
        let symbol = self.symbol_at(sym);
        self.mention_each(Place::Condition, symbol.prompts.as_slice(), row)?;
        self.mention_defaults(symbol.defaults.as_slice(), row)?;
        self.mention_places(sym, links, row)?;
        self.mention_type(self.counts_as(sym), row)
    }

    /// Adds the references of a symbol's places, where some symbol implies it.
    fn mention_places(
        &self,
        sym: u32,
        links: &Links,
        row: &mut Items<u32>,
    ) -> Result<(), AllocError>
        requires sym { sym < length self.now.symbols }
        requires links { AreLinks self.now links.now }
        requires within { All (λ k. k < length self.now.symbols) row.old }
        ensures row { OnOk result (row.new ≡ row.old ++ spec.of_implied self.now (shape.impliers_of self.now sym) (shape.symbol_at self.now sym).places) }
        ensures within { OnOk result (All (λ k. k < length self.now.symbols) row.new) }
    {
        if links.implies[sym as usize].is_empty() {
            return Ok(());
        }
        self.mention_each(Place::Condition, self.symbol_at(sym).places.as_slice(), row)
    }

    /// Adds the symbols that have these selects or implies, and those that their conditions ask for.
    fn mention_selectors(
        &self,
        link: Link,
        selectors: &[Selector],
        row: &mut Items<u32>,
    ) -> Result<(), AllocError>
        requires selectors { All (IsLinker self.now link) selectors.now }
        requires within { All (λ k. k < length self.now.symbols) row.old }
        ensures row { OnOk result (row.new ≡ row.old ++ flat_map (spec.of_selector self.now) (map (linker_of self.now link) selectors.now)) }
        ensures within { OnOk result (All (λ k. k < length self.now.symbols) row.new) }
    {
        for selector in selectors {
            row.push(selector.by)?;
            self.mention(Place::Condition, self.condition(link, *selector), row)?;
        }
        Ok(())
    }

    /// Adds the references of a symbol that is no member.
    pub(crate) fn mention_symbol(
        &self,
        sym: u32,
        links: &Links,
        row: &mut Items<u32>,
    ) -> Result<(), AllocError>
        requires sym { sym < length self.now.symbols }
        requires links { AreLinks self.now links.now }
        requires within { All (λ k. k < length self.now.symbols) row.old }
        ensures row { OnOk result (row.new ≡ row.old ++ spec.symbol_references self.now sym) }
        ensures within { OnOk result (All (λ k. k < length self.now.symbols) row.new) }
    {
        self.mention_own(sym, links, row)?;
        self.mention_selectors(Link::Selects, links.selects[sym as usize].as_slice(), row)?;
        self.mention_selectors(Link::Implies, links.implies[sym as usize].as_slice(), row)
    }

    /// Adds the symbol that a choice default picks, unless it is a member of the choice.
    fn mention_picked(
        &self,
        choice: u32,
        name: &Text,
        row: &mut Items<u32>,
    ) -> Result<(), AllocError>
        requires { All (λ k. k < length self.now.symbols) row.old }
        ensures row { OnOk result (row.new ≡ row.old ++ spec.picked_outside self.now choice (shape.number_of self.now name.now)) }
        ensures within { OnOk result (All (λ k. k < length self.now.symbols) row.new) }
    {
        match self.symbol(name.text()) {
            None => Ok(()),
            Some(sym) => {
                if is_the(self.symbol_at(sym).member_of, choice) {
                    Ok(())
                } else {
                    row.push(sym)
                }
            }
        }
    }

    /// Adds the references of a choice's defaults.
    fn mention_choice_defaults(
        &self,
        choice: u32,
        defaults: &[SelectOf],
        row: &mut Items<u32>,
    ) -> Result<(), AllocError>
        requires { All (λ k. k < length self.now.symbols) row.old }
        ensures row { OnOk result (row.new ≡ row.old ++ flat_map (spec.of_choice_default self.now choice) defaults.now) }
        ensures within { OnOk result (All (λ k. k < length self.now.symbols) row.new) }
    {
        for default in defaults {
            self.mention_picked(choice, &default.target, row)?;
            self.mention(Place::Condition, &default.cond, row)?;
        }
        Ok(())
    }

    /// Adds the own references of members.
    fn mention_members(
        &self,
        members: &[u32],
        links: &Links,
        row: &mut Items<u32>,
    ) -> Result<(), AllocError>
        requires members { All (λ k. k < length self.now.symbols) members.now }
        requires links { AreLinks self.now links.now }
        requires within { All (λ k. k < length self.now.symbols) row.old }
        ensures row { OnOk result (row.new ≡ row.old ++ flat_map (spec.own_references self.now) members.now) }
        ensures within { OnOk result (All (λ k. k < length self.now.symbols) row.new) }
    {
        for member in members {
            self.mention_own(*member, links, row)?;
        }
        Ok(())
    }

    /// Adds the references of a choice with its members.
    pub(crate) fn mention_choice(
        &self,
        choice: u32,
        links: &Links,
        row: &mut Items<u32>,
    ) -> Result<(), AllocError>
        requires choice { choice < length self.now.choices }
        requires links { AreLinks self.now links.now }
        requires within { All (λ k. k < length self.now.symbols) row.old }
        ensures row { OnOk result (row.new ≡ row.old ++ spec.choice_references self.now choice) }
        ensures within { OnOk result (All (λ k. k < length self.now.symbols) row.new) }
    {
        let choice_of = self.choice_at(choice);
        self.mention_each(Place::Condition, choice_of.prompts.as_slice(), row)?;
        self.mention_choice_defaults(choice, choice_of.defaults.as_slice(), row)?;
        self.mention_type(counts_alone(choice_of.kind), row)?;
        self.mention_members(choice_of.members.as_slice(), links, row)
    }
}
