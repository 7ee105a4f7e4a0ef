ghost use Rattle.std.specs.Prelude.{◌≡◌, ◌++◌, IfOk, OnOk};
ghost use Rattle.std.specs.List.{flat_map};
ghost use Rattle.std.specs.List.Sorted.{IsStrictlySortedBy};
ghost use Rattle.ut_text.specs.Text.{text_cmp};
ghost use Rattle.kconf_tree.specs.Naming.{AddsNames};
ghost use Rattle.kconf_tree.specs.Undeclared as spec;
ghost use Rattle.kconf_tree.specs.Value as value;

use crate::shape::{Choice, Symbol};
use crate::tree::Tree;
use kconf_entries::{DefaultOf, Expr, SelectOf, Side, Sign};
use std::alloc::{AllocError, Global};
use std::collections::BTreeSet;
use ut_logic::Text;

/// Adds the names of a list to a set.
fn add_names(set: &mut BTreeSet<Text>, names: Vec<Text>) -> Result<(), AllocError>
    ensures { OnOk result (AddsNames set.old set.new names.items) }
{
    for name in names {
        set.insert(name)?;
    }
    Ok(())
}

/// The names of a set, rising by their bytes.
fn rising(alloc: Global, set: BTreeSet<Text>) -> Result<Vec<Text>, AllocError>
    ensures names { IfOk result (λ v. v.items ≡ set.keys) }
    ensures rising { IfOk result (λ v. IsStrictlySortedBy text_cmp v.items) }
{
    let mut names = Vec::with_capacity(alloc, set.len())?;
    for name in set {
        names.push(name)?;
    }
    Ok(names)
}

impl Tree {
    /// Adds the name, unless a symbol has it.
    fn push_undeclared(
        &self,
        alloc: Global,
        name: &Text,
        names: &mut Vec<Text>,
    ) -> Result<(), AllocError>
        ensures { OnOk result (names.new.items ≡ names.old.items ++ spec.unless_declared self.now.shape name.now) }
    {
        match self.symbol(name.text()) {
            Some(_) => Ok(()),
            None => {
                names.push(name.copy(alloc)?)?;
                Ok(())
            }
        }
    }

    /// Adds that of a side.
    fn push_side(&self, alloc: Global, side: &Side, names: &mut Vec<Text>) -> Result<(), AllocError>
        ensures { OnOk result (names.new.items ≡ names.old.items ++ spec.side_undeclared self.now.shape side.now) }
    {
        match side {
            Side::Name(name) => self.push_undeclared(alloc, name, names),
            Side::Const(_) | Side::Literal(_) | Side::Quoted(_) => Ok(()),
        }
    }

    /// Adds those of a comparison of two of the three values.
    fn push_sides(
        &self,
        alloc: Global,
        left: &Side,
        sign: Sign,
        right: &Side,
        names: &mut Vec<Text>,
    ) -> Result<(), AllocError>
        ensures { OnOk result (names.new.items ≡ names.old.items ++ spec.compared_undeclared self.now.shape left.now right.now (value.comparison_of self.now.shape left.now sign right.now)) }
    {
        if !self.compares_trits(left, sign, right) {
            return Ok(());
        }
        self.push_side(alloc, left, names)?;
        self.push_side(alloc, right, names)
    }

    /// Adds the undeclared names of an expression, in order.
    #[cycle(undeclared)]
    fn push_names(&self, alloc: Global, e: &Expr, names: &mut Vec<Text>) -> Result<(), AllocError>
        ensures { OnOk result (names.new.items ≡ names.old.items ++ spec.undeclared_in self.now.shape e.now) }
    {
        match e {
            Expr::Const(_) | Expr::Outer(_) => Ok(()),
            Expr::Name(name) => self.push_undeclared(alloc, name, names),
            Expr::Compare { left, sign, right } => {
                self.push_sides(alloc, left, *sign, right, names)
            }
            Expr::Neg(inner) => self.push_names(alloc, inner.get(), names),
            Expr::And(list) => self.push_each(alloc, list.as_slice(), names),
            Expr::Or(list) => self.push_each(alloc, list.as_slice(), names),
        }
    }

    /// Adds those of each expression.
    #[cycle(undeclared)]
    fn push_each(
        &self,
        alloc: Global,
        list: &[Expr],
        names: &mut Vec<Text>,
    ) -> Result<(), AllocError>
        ensures { OnOk result (names.new.items ≡ names.old.items ++ flat_map (spec.undeclared_in self.now.shape) list.now) }
    {
        for e in list {
            self.push_names(alloc, e, names)?;
        }
        Ok(())
    }

    /// Adds those of defaults.
    fn push_defaults(
        &self,
        alloc: Global,
        defaults: &[DefaultOf],
        names: &mut Vec<Text>,
    ) -> Result<(), AllocError>
        ensures { OnOk result (names.new.items ≡ names.old.items ++ flat_map (spec.undeclared_of_default self.now.shape) defaults.now) }
    {
        for default in defaults {
            self.push_names(alloc, &default.value, names)?;
            self.push_names(alloc, &default.cond, names)?;
        }
        Ok(())
    }

    /// Adds those of the conditions of selects, implies or choice defaults.
    fn push_conditions(
        &self,
        alloc: Global,
        selects: &[SelectOf],
        names: &mut Vec<Text>,
    ) -> Result<(), AllocError>
        ensures { OnOk result (names.new.items ≡ names.old.items ++ spec.undeclared_of_conditions self.now.shape selects.now) }
    {
        for select in selects {
            self.push_names(alloc, &select.cond, names)?;
        }
        Ok(())
    }

    /// Adds those of a symbol.
    fn push_symbol(
        &self,
        alloc: Global,
        symbol: &Symbol,
        names: &mut Vec<Text>,
    ) -> Result<(), AllocError>
        ensures { OnOk result (names.new.items ≡ names.old.items ++ spec.undeclared_of_symbol self.now.shape symbol.now) }
    {
        self.push_each(alloc, symbol.places.as_slice(), names)?;
        self.push_each(alloc, symbol.prompts.as_slice(), names)?;
        self.push_defaults(alloc, symbol.defaults.as_slice(), names)?;
        self.push_conditions(alloc, symbol.selects.as_slice(), names)?;
        self.push_conditions(alloc, symbol.implies.as_slice(), names)
    }

    /// Adds those of a choice.
    fn push_choice(
        &self,
        alloc: Global,
        choice: &Choice,
        names: &mut Vec<Text>,
    ) -> Result<(), AllocError>
        ensures { OnOk result (names.new.items ≡ names.old.items ++ spec.undeclared_of_choice self.now.shape choice.now) }
    {
        self.push_each(alloc, choice.prompts.as_slice(), names)?;
        self.push_conditions(alloc, choice.defaults.as_slice(), names)
    }

    /// Adds those of all symbols, one symbol after another, so that a name is held once.
    fn add_symbols(&self, alloc: Global, set: &mut BTreeSet<Text>) -> Result<(), AllocError>
        ensures { OnOk result (AddsNames set.old set.new (flat_map (spec.undeclared_of_symbol self.now.shape) self.now.shape.symbols)) }
    {
        for sym in 0..self.symbols() {
            let mut names = Vec::new(alloc);
            self.push_symbol(alloc, self.symbol_at(sym), &mut names)?;
            add_names(set, names)?;
        }
        Ok(())
    }

    /// Adds those of all choices, one choice after another.
    fn add_choices(&self, alloc: Global, set: &mut BTreeSet<Text>) -> Result<(), AllocError>
        ensures { OnOk result (AddsNames set.old set.new (flat_map (spec.undeclared_of_choice self.now.shape) self.now.shape.choices)) }
    {
        for choice in 0..self.choices() {
            let mut names = Vec::new(alloc);
            self.push_choice(alloc, self.choice_at(choice), &mut names)?;
            add_names(set, names)?;
        }
        Ok(())
    }

    /// The undeclared names of the three-valued expressions, rising by their bytes, each once. Names that
    /// stand only in outer conditions do not count. The only error is out of memory.
    pub fn undeclared(&self, alloc: Global) -> Result<Vec<Text>, AllocError>
        ensures { IfOk result (λ v. spec.AreUndeclared self.now.shape v.items) }
    {
        let mut set = BTreeSet::new(alloc);
        self.add_symbols(alloc, &mut set)?;
        self.add_choices(alloc, &mut set)?;
        let names = rising(alloc, set)?;
        Ok(names)
    }
}
