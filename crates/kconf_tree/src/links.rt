ghost use Rattle.std.specs.Prelude.{◌≡◌, ◌<◌, [], length, IfOk, OnOk, replicate, slice_index_or};
ghost use Rattle.kconf_tree.specs.Shape.{number_of, symbol_at};
ghost use Rattle.ut_text.specs.Text.{text_eq};
ghost use Rattle.kconf_tree.specs.Apart.{AreApart};
ghost use Rattle.kconf_tree.specs.Apart.{names_in};
ghost use Rattle.kconf_tree.specs.Linking.{IsLinker, linked_each, linked_all, linker_of, list_of, with_one};
ghost use Rattle.kconf_tree.specs.Links.{AreLinkers, AreLinks};

use crate::parts::Parts;
use crate::shape::Selector;
use kconf_entries::{Expr, SelectOf};
use sqlite_items::Items;
use std::alloc::{AllocError, Global};
use ut_logic::Text;

/// Which of a symbol's properties lead to other symbols.
#[derive(Clone, Copy)]
pub enum Link {
    Selects,
    Implies,
}

/// `count` empty rows.
fn empty_rows(alloc: Global, count: u32) -> Result<Vec<Items<Selector>>, AllocError>
    ensures { IfOk result (λ rows. rows.items ≡ replicate count []) }
{
    let mut rows = Vec::with_capacity(alloc, count as usize)?;
    for _number in 0..count {
        rows.push(Items::new(alloc))?;
    }
    Ok(rows)
}

/// For each symbol, those that select it and those that imply it.
#[derive(Drop)]
pub struct Links {
    pub selects: Vec<Items<Selector>>,
    pub implies: Vec<Items<Selector>>,
}

impl Parts {
    /// What a symbol selects, or what it implies.
    fn list(&self, link: Link, sym: u32) -> &[SelectOf]
        requires { sym < length self.now.symbols }
        ensures { result.now ≡ list_of link (symbol_at self.now sym) }
    {
        match link {
            Link::Selects => self.symbol_at(sym).selects.as_slice(),
            Link::Implies => self.symbol_at(sym).implies.as_slice(),
        }
    }

    /// The full condition of a select or an imply.
    pub(crate) fn condition(&self, link: Link, selector: Selector) -> &Expr
        requires { IsLinker self.now link selector }
        ensures { result.now ≡ (linker_of self.now link selector).cond }
    {
        &self.list(link, selector.by)[selector.nth].cond
    }

    /// Adds a select or an imply to the row of its target.
    fn link(
        &self,
        selector: Selector,
        target: &Text,
        rows: &mut Vec<Items<Selector>>,
    ) -> Result<(), AllocError>
        requires count { length rows.old.items ≡ length self.now.symbols }
        ensures { OnOk result (rows.new.items ≡ with_one rows.old.items (number_of self.now target.now) selector) }
    {
        match self.symbol(target.text()) {
            None => Ok(()),
            Some(target) => rows[target as usize].push(selector),
        }
    }

    /// Adds all selects or implies of a symbol.
    fn link_each(
        &self,
        link: Link,
        by: u32,
        rows: &mut Vec<Items<Selector>>,
    ) -> Result<(), AllocError>
        requires count { length rows.old.items ≡ length self.now.symbols }
        requires by { by < length self.now.symbols }
        requires within { AreLinkers self.now link rows.old.items }
        ensures rows { OnOk result (rows.new.items ≡ linked_each self.now by 0 rows.old.items (list_of link (symbol_at self.now by))) }
        ensures count { OnOk result (length rows.new.items ≡ length rows.old.items) }
        ensures within { OnOk result (AreLinkers self.now link rows.new.items) }
    {
        let list = self.list(link, by);
        for nth in 0..list.len() {
            self.link(Selector { by, nth }, &list[nth].target, rows)?;
        }
        Ok(())
    }

    /// For each symbol, those that select or imply it.
    pub(crate) fn linked(
        &self,
        alloc: Global,
        link: Link,
    ) -> Result<Vec<Items<Selector>>, AllocError>
        ensures rows { IfOk result (λ rows. rows.items ≡ linked_all self.now link 0 (replicate (length self.now.symbols) []) self.now.symbols) }
        ensures count { IfOk result (λ rows. length rows.items ≡ length self.now.symbols) }
        ensures within { IfOk result (λ rows. AreLinkers self.now link rows.items) }
    {
        let mut rows = empty_rows(alloc, self.symbols())?;
        for sym in 0..self.symbols() {
            self.link_each(link, sym, &mut rows)?;
        }
        Ok(rows)
    }

    /// The selects and implies of all symbols, as their targets see them. The only error is out of memory.
    pub(crate) fn links(&self, alloc: Global) -> Result<Links, AllocError>
        requires { AreApart text_eq (names_in self.now.symbols) }
        ensures { IfOk result (AreLinks self.now) }
    {
        let selects = self.linked(alloc, Link::Selects)?;
        let implies = self.linked(alloc, Link::Implies)?;
        Ok(Links { selects, implies })
    }
}
