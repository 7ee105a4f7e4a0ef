//! The two formulas of an expression.

ghost use Rattle.std.specs.Prelude.{◌≡◌, ◌<◌, IfOk, length, map};
ghost use Rattle.ut_logic.specs.Fold as fold;
ghost use Rattle.kconf_tree.specs.Value.{comparison_of};
ghost use Rattle.kconf_constr.specs.Levels as spec;

use crate::level::Level;
use crate::scope::Scope;
use kconf_entries::{Expr, Side, Sign};
use kconf_tree::{Counts, Place};
use std::alloc::{AllocError, Global};
use ut_logic::{Formula, Item, Text, Trit, all_of, any_of, not_of};

/// The formula of a value.
fn value_formula(trit: Trit, level: Level) -> Formula
    ensures { result ≡ spec.at_level level (spec.value_levels trit) }
{
    match trit {
        Trit::N => Formula::No,
        Trit::M => match level {
            Level::NotN => Formula::Yes,
            Level::IsY => Formula::No,
        },
        Trit::Y => Formula::Yes,
    }
}

/// The item of an undeclared name, or No.
fn undeclared_formula(number: Option<u64>) -> Formula
    ensures { result ≡ spec.undeclared_formula number }
{
    match number {
        None => Formula::No,
        Some(number) => Formula::Is(Item::Undeclared(number)),
    }
}

/// The item of an outer condition, or No.
fn outer_formula(number: Option<u64>) -> Formula
    ensures { result ≡ spec.outer_formula number }
{
    match number {
        None => Formula::No,
        Some(number) => Formula::Is(Item::Outer(number)),
    }
}

/// That the modules symbol isn't n, or No without one.
pub fn modules_formula(number: Option<u32>) -> Formula
    ensures { result ≡ spec.modules_formula number }
{
    match number {
        None => Formula::No,
        Some(number) => Formula::Is(Item::SymY(number)),
    }
}

/// The formula of a symbol that counts as this.
fn own_formula_as(
    alloc: Global,
    counts: Counts,
    sym: u32,
    level: Level,
) -> Result<Formula, AllocError>
    ensures { IfOk result (λ f. f ≡ spec.at_level level (spec.own_levels_as counts sym)) }
{
    match counts {
        Counts::Bool => Ok(Formula::Is(Item::SymY(sym))),
        Counts::Tristate => match level {
            Level::NotN => Ok(any_of(vec![in alloc;
                Formula::Is(Item::SymY(sym)),
                Formula::Is(Item::SymM(sym)),
            ]?)),
            Level::IsY => Ok(Formula::Is(Item::SymY(sym))),
        },
        Counts::Neither => Ok(Formula::No),
    }
}

/// The formula of a comparison by this sign, given that of equal values.
fn compared(alloc: Global, sign: Sign, equal: Formula) -> Result<Formula, AllocError>
    ensures { IfOk result (λ f. f ≡ spec.compared sign equal) }
{
    match sign {
        Sign::Same => Ok(equal),
        Sign::Differ | Sign::Less | Sign::More | Sign::LessSame | Sign::MoreSame => {
            not_of(alloc, equal)
        }
    }
}

impl<'a> Scope<'a> {
    /// The formula of a symbol's own value.
    pub fn own_formula(&self, alloc: Global, sym: u32, level: Level) -> Result<Formula, AllocError>
        requires { sym < length self.now.shape.symbols }
        ensures { IfOk result (λ f. f ≡ spec.at_level level (spec.own_levels self.now sym)) }
    {
        own_formula_as(alloc, self.tree().counts_as(sym), sym, level)
    }

    /// The formula of a name.
    fn name_formula(&self, alloc: Global, name: &Text, level: Level) -> Result<Formula, AllocError>
        ensures { IfOk result (λ f. f ≡ spec.at_level level (spec.name_levels self.now name.now)) }
    {
        match self.tree().symbol(name.text()) {
            None => Ok(undeclared_formula(self.undeclared_number(name))),
            Some(sym) => self.own_formula(alloc, sym, level),
        }
    }

    /// The formula of a constant at a place.
    fn const_formula(&self, place: Place, trit: Trit, level: Level) -> Formula
        ensures { result ≡ spec.at_level level (spec.const_levels self.now place trit) }
    {
        match place {
            Place::Value => value_formula(trit, level),
            Place::Condition => match trit {
                Trit::N => Formula::No,
                Trit::M => match level {
                    Level::NotN => modules_formula(self.tree().modules()),
                    Level::IsY => Formula::No,
                },
                Trit::Y => Formula::Yes,
            },
        }
    }

    /// The formula of a side of a comparison.
    fn side_formula(&self, alloc: Global, side: &Side, level: Level) -> Result<Formula, AllocError>
        ensures { IfOk result (λ f. f ≡ spec.at_level level (spec.side_levels self.now side.now)) }
    {
        match side {
            Side::Const(trit) => Ok(value_formula(*trit, level)),
            Side::Name(name) => self.name_formula(alloc, name, level),
            Side::Literal(_) | Side::Quoted(_) => Ok(Formula::No),
        }
    }

    /// The negation of a side's formula: that it is n, or isn't y.
    fn side_not(&self, alloc: Global, side: &Side, level: Level) -> Result<Formula, AllocError>
        ensures { IfOk result (λ f. f ≡ fold.not_of (spec.at_level level (spec.side_levels self.now side.now))) }
    {
        let formula = self.side_formula(alloc, side, level)?;
        not_of(alloc, formula)
    }

    /// That both sides are y.
    fn both_y(&self, alloc: Global, left: &Side, right: &Side) -> Result<Formula, AllocError>
        ensures { IfOk result (λ f. f ≡ spec.both_y (spec.side_levels self.now left.now) (spec.side_levels self.now right.now)) }
    {
        let left = self.side_formula(alloc, left, Level::IsY)?;
        let right = self.side_formula(alloc, right, Level::IsY)?;
        Ok(all_of(vec![in alloc; left, right]?))
    }

    /// That both sides are n.
    fn both_n(&self, alloc: Global, left: &Side, right: &Side) -> Result<Formula, AllocError>
        ensures { IfOk result (λ f. f ≡ spec.both_n (spec.side_levels self.now left.now) (spec.side_levels self.now right.now)) }
    {
        let left = self.side_not(alloc, left, Level::NotN)?;
        let right = self.side_not(alloc, right, Level::NotN)?;
        Ok(all_of(vec![in alloc; left, right]?))
    }

    /// That both sides are m.
    fn both_m(&self, alloc: Global, left: &Side, right: &Side) -> Result<Formula, AllocError>
        ensures { IfOk result (λ f. f ≡ spec.both_m (spec.side_levels self.now left.now) (spec.side_levels self.now right.now)) }
    {
        let left_some = self.side_formula(alloc, left, Level::NotN)?;
        let left_below = self.side_not(alloc, left, Level::IsY)?;
        let right_some = self.side_formula(alloc, right, Level::NotN)?;
        let right_below = self.side_not(alloc, right, Level::IsY)?;
        Ok(all_of(vec![in alloc; left_some, left_below, right_some, right_below]?))
    }

    /// That both sides have the same value.
    fn same(&self, alloc: Global, left: &Side, right: &Side) -> Result<Formula, AllocError>
        ensures { IfOk result (λ f. f ≡ spec.same (spec.side_levels self.now left.now) (spec.side_levels self.now right.now)) }
    {
        let y = self.both_y(alloc, left, right)?;
        let n = self.both_n(alloc, left, right)?;
        let m = self.both_m(alloc, left, right)?;
        Ok(any_of(vec![in alloc; y, n, m]?))
    }

    /// The formula of a comparison: of two of the three values, or of an outer condition.
    fn comparison(
        &self,
        alloc: Global,
        left: &Side,
        sign: Sign,
        right: &Side,
    ) -> Result<Formula, AllocError>
        ensures { IfOk result (λ f. f ≡ spec.comparison_formula self.now left.now sign right.now (comparison_of self.now.shape left.now sign right.now)) }
    {
        if self.tree().compares_trits(left, sign, right) {
            let equal = self.same(alloc, left, right)?;
            return compared(alloc, sign, equal);
        }
        let number = self.tree().comparison_number(left, sign, right);
        Ok(outer_formula(number))
    }

    /// The formula of each expression at a place.
    #[cycle(level)]
    pub fn formulas_in(
        &self,
        alloc: Global,
        place: Place,
        list: &[Expr],
        level: Level,
    ) -> Result<Vec<Formula>, AllocError>
        ensures { IfOk result (λ fs. fs.items ≡ map (spec.at_level level) (map (spec.levels self.now place) list.now)) }
    {
        let mut all = Vec::with_capacity(alloc, list.len())?;
        for e in list {
            all.push(self.formula_in(alloc, place, e, level)?)?;
        }
        Ok(all)
    }

    /// The formula of an expression at a place. The only error is out of memory.
    #[cycle(level)]
    pub fn formula_in(
        &self,
        alloc: Global,
        place: Place,
        e: &Expr,
        level: Level,
    ) -> Result<Formula, AllocError>
        ensures { IfOk result (λ f. f ≡ spec.at_level level (spec.levels self.now place e.now)) }
    {
        match e {
            Expr::Const(trit) => Ok(self.const_formula(place, *trit, level)),
            Expr::Name(name) => self.name_formula(alloc, name, level),
            Expr::Outer(text) => Ok(outer_formula(self.tree().outer_number(text.text()))),
            Expr::Compare { left, sign, right } => self.comparison(alloc, left, *sign, right),
            Expr::Neg(inner) => {
                let formula = self.formula_in(alloc, place, inner.get(), level.other())?;
                not_of(alloc, formula)
            }
            Expr::And(list) => {
                let all = self.formulas_in(alloc, place, list.as_slice(), level)?;
                Ok(all_of(all))
            }
            Expr::Or(list) => {
                let all = self.formulas_in(alloc, place, list.as_slice(), level)?;
                Ok(any_of(all))
            }
        }
    }
}
