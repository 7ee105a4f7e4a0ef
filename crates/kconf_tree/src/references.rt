ghost use Rattle.std.specs.Prelude.{◌≡◌, ◌<◌, ◌++◌, ◌∷◌, [], length, All, OnOk};
ghost use Rattle.std.specs.Option.{option_to_list as listed};
ghost use Rattle.std.specs.List.{flat_map};
ghost use Rattle.kconf_tree.specs.Value as value;
ghost use Rattle.kconf_tree.specs.References as spec;

use crate::parts::Parts;
use crate::place::Place;
use crate::types::is_text_or_number;
use kconf_entries::{DefaultOf, Expr, Side, Sign};
use sqlite_items::Items;
use std::alloc::AllocError;
use ut_logic::{Text, Trit};

/// Adds the number, if any.
pub fn push(row: &mut Items<u32>, number: Option<u32>) -> Result<(), AllocError>
    ensures { OnOk result (row.new ≡ row.old ++ listed number) }
{
    match number {
        None => Ok(()),
        Some(number) => row.push(number),
    }
}

impl Parts {
    /// Whether a side has one of the three values.
    fn has_trit(&self, side: &Side) -> bool
        ensures { result ≡ value.has_trit self.now side.now }
    {
        match side {
            Side::Const(_) => true,
            Side::Name(name) => match self.symbol(name.text()) {
                None => true,
                Some(sym) => !is_text_or_number(self.symbol_at(sym).kind),
            },
            Side::Literal(_) | Side::Quoted(_) => false,
        }
    }

    /// Whether a comparison compares two of the three values.
    pub fn compares_trits(&self, left: &Side, sign: Sign, right: &Side) -> bool
        ensures { result ≡ value.compares_trits self.now left.now sign right.now }
    {
        matches!(sign, Sign::Same | Sign::Differ) && self.has_trit(left) && self.has_trit(right)
    }

    /// Adds the symbol that a name stands for.
    fn push_named(&self, name: &Text, row: &mut Items<u32>) -> Result<(), AllocError>
        requires { All (λ k. k < length self.now.symbols) row.old }
        ensures row { OnOk result (row.new ≡ row.old ++ spec.named_by self.now name.now) }
        ensures within { OnOk result (All (λ k. k < length self.now.symbols) row.new) }
    {
        push(row, self.symbol(name.text()))
    }

    /// Adds the symbol that a side names.
    fn push_side(&self, side: &Side, row: &mut Items<u32>) -> Result<(), AllocError>
        requires { All (λ k. k < length self.now.symbols) row.old }
        ensures row { OnOk result (row.new ≡ row.old ++ spec.side_numbers self.now side.now) }
        ensures within { OnOk result (All (λ k. k < length self.now.symbols) row.new) }
    {
        match side {
            Side::Name(name) => self.push_named(name, row),
            Side::Const(_) | Side::Literal(_) | Side::Quoted(_) => Ok(()),
        }
    }

    /// Adds the modules symbol for a bare `m` in a condition.
    fn push_const(&self, place: Place, trit: Trit, row: &mut Items<u32>) -> Result<(), AllocError>
        requires { All (λ k. k < length self.now.symbols) row.old }
        ensures row { OnOk result (row.new ≡ row.old ++ spec.const_numbers self.now place trit) }
        ensures within { OnOk result (All (λ k. k < length self.now.symbols) row.new) }
    {
        match place {
            Place::Value => Ok(()),
            Place::Condition => match trit {
                Trit::M => push(row, self.modules()),
                Trit::N | Trit::Y => Ok(()),
            },
        }
    }

    /// Adds the sides of a comparison of two of the three values.
    fn push_compared(
        &self,
        left: &Side,
        sign: Sign,
        right: &Side,
        row: &mut Items<u32>,
    ) -> Result<(), AllocError>
        requires { All (λ k. k < length self.now.symbols) row.old }
        ensures row { OnOk result (row.new ≡ row.old ++ spec.compared_numbers self.now left.now right.now (value.comparison_of self.now left.now sign right.now)) }
        ensures within { OnOk result (All (λ k. k < length self.now.symbols) row.new) }
    {
        if !self.compares_trits(left, sign, right) {
            return Ok(());
        }
        self.push_side(left, row)?;
        self.push_side(right, row)
    }

    /// Adds the symbols that an expression asks for, in order.
    #[cycle(mention)]
    pub(crate) fn mention(
        &self,
        place: Place,
        e: &Expr,
        row: &mut Items<u32>,
    ) -> Result<(), AllocError>
        requires { All (λ k. k < length self.now.symbols) row.old }
        ensures row { OnOk result (row.new ≡ row.old ++ spec.numbers_in self.now place e.now) }
        ensures within { OnOk result (All (λ k. k < length self.now.symbols) row.new) }
    {
        match e {
            Expr::Const(trit) => self.push_const(place, *trit, row),
            Expr::Name(name) => self.push_named(name, row),
            Expr::Outer(_) => Ok(()),
            Expr::Compare { left, sign, right } => self.push_compared(left, *sign, right, row),
            Expr::Neg(inner) => self.mention(place, inner.get(), row),
            Expr::And(list) => self.mention_each(place, list.as_slice(), row),
            Expr::Or(list) => self.mention_each(place, list.as_slice(), row),
        }
    }

    /// Adds those that each expression asks for.
    #[cycle(mention)]
    pub(crate) fn mention_each(
        &self,
        place: Place,
        list: &[Expr],
        row: &mut Items<u32>,
    ) -> Result<(), AllocError>
        requires { All (λ k. k < length self.now.symbols) row.old }
        ensures row { OnOk result (row.new ≡ row.old ++ flat_map (spec.numbers_in self.now place) list.now) }
        ensures within { OnOk result (All (λ k. k < length self.now.symbols) row.new) }
    {
        for e in list {
            self.mention(place, e, row)?;
        }
        Ok(())
    }

    /// Adds those that defaults ask for.
    pub(crate) fn mention_defaults(
        &self,
        defaults: &[DefaultOf],
        row: &mut Items<u32>,
    ) -> Result<(), AllocError>
        requires { All (λ k. k < length self.now.symbols) row.old }
        ensures row { OnOk result (row.new ≡ row.old ++ flat_map (spec.of_default self.now) defaults.now) }
        ensures within { OnOk result (All (λ k. k < length self.now.symbols) row.new) }
    {
        for default in defaults {
            self.mention(Place::Condition, &default.cond, row)?;
            self.mention(Place::Value, &default.value, row)?;
        }
        Ok(())
    }
}
