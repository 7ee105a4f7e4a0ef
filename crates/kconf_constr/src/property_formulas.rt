//! The formulas of a symbol's visibility, reverse dependency and default, which gives way where it is implied.

ghost use Rattle.std.specs.Prelude.{◌≡◌, ◌<◌, ◌++◌, ◌∷◌, [], All, IfOk, OnOk, length, map};
ghost use Rattle.kconf_tree.specs.Shape.{IsSelector, IsImplier, selecting_of, implying_of, symbol_at};
ghost use Rattle.ut_logic.specs.Fold as fold;
ghost use Rattle.kconf_constr.specs.Levels.{at_level};
ghost use Rattle.kconf_constr.specs.PropertyFormulas as spec;

use crate::level::Level;
use crate::scope::Scope;
use kconf_entries::{DefaultOf, Expr};
use kconf_tree::{Place, Selector};
use std::alloc::{AllocError, Global};
use ut_logic::{Formula, all_of, any_of, not_of};

/// Copies of formulas.
fn copies(alloc: Global, formulas: &[Formula]) -> Result<Vec<Formula>, AllocError>
    ensures { IfOk result (λ v. v.items ≡ formulas.now) }
{
    let mut all = Vec::with_capacity(alloc, formulas.len())?;
    for formula in formulas {
        all.push(formula.copy(alloc)?)?;
    }
    Ok(all)
}

impl<'a> Scope<'a> {
    /// The formula of a condition.
    pub(crate) fn condition(
        &self,
        alloc: Global,
        e: &Expr,
        level: Level,
    ) -> Result<Formula, AllocError>
        ensures { IfOk result (λ f. f ≡ spec.condition_at self.now level e.now) }
    {
        self.formula_in(alloc, Place::Condition, e, level)
    }

    /// The formula of the greatest of these conditions.
    pub fn greatest_formula(
        &self,
        alloc: Global,
        list: &[Expr],
        level: Level,
    ) -> Result<Formula, AllocError>
        ensures { IfOk result (λ f. f ≡ at_level level (spec.greatest_levels self.now list.now)) }
    {
        let all = self.formulas_in(alloc, Place::Condition, list, level)?;
        Ok(any_of(all))
    }

    /// The formula of a symbol's visibility.
    pub fn visibility(&self, alloc: Global, sym: u32, level: Level) -> Result<Formula, AllocError>
        requires { sym < length self.now.shape.symbols }
        ensures { IfOk result (λ f. f ≡ at_level level (spec.visibility_levels self.now sym)) }
    {
        let prompts = &self.tree().symbol_at(sym).prompts;
        self.greatest_formula(alloc, prompts.as_slice(), level)
    }

    /// The formula of what one select gives its target.
    fn selected(
        &self,
        alloc: Global,
        selector: Selector,
        level: Level,
    ) -> Result<Formula, AllocError>
        requires { IsSelector self.now.shape selector }
        ensures { IfOk result (λ f. f ≡ spec.selected_at self.now level (selecting_of self.now.shape selector)) }
    {
        let own = self.own_formula(alloc, selector.by, level)?;
        let condition = self.condition(alloc, self.tree().select_condition(selector), level)?;
        Ok(all_of(vec![in alloc; own, condition]?))
    }

    /// The formula of what one imply gives its target.
    fn implied(&self, alloc: Global, implier: Selector, level: Level) -> Result<Formula, AllocError>
        requires { IsImplier self.now.shape implier }
        ensures { IfOk result (λ f. f ≡ spec.selected_at self.now level (implying_of self.now.shape implier)) }
    {
        let own = self.own_formula(alloc, implier.by, level)?;
        let condition = self.condition(alloc, self.tree().imply_condition(implier), level)?;
        Ok(all_of(vec![in alloc; own, condition]?))
    }

    /// The formula of what implies together give their target.
    fn implied_each(
        &self,
        alloc: Global,
        impliers: &[Selector],
        level: Level,
    ) -> Result<Formula, AllocError>
        requires { All (IsImplier self.now.shape) impliers.now }
        ensures { IfOk result (λ f. f ≡ spec.reverse_at self.now level (map (implying_of self.now.shape) impliers.now)) }
    {
        let mut all = Vec::with_capacity(alloc, impliers.len())?;
        for implier in impliers {
            all.push(self.implied(alloc, *implier, level)?)?;
        }
        Ok(any_of(all))
    }

    /// The formula of what selects together raise their target to.
    fn selected_each(
        &self,
        alloc: Global,
        selectors: &[Selector],
        level: Level,
    ) -> Result<Formula, AllocError>
        requires { All (IsSelector self.now.shape) selectors.now }
        ensures { IfOk result (λ f. f ≡ spec.reverse_at self.now level (map (selecting_of self.now.shape) selectors.now)) }
    {
        let mut all = Vec::with_capacity(alloc, selectors.len())?;
        for selector in selectors {
            all.push(self.selected(alloc, *selector, level)?)?;
        }
        Ok(any_of(all))
    }

    /// The formula of a symbol's reverse dependency.
    pub fn reverse(&self, alloc: Global, sym: u32, level: Level) -> Result<Formula, AllocError>
        requires { sym < length self.now.shape.symbols }
        ensures { IfOk result (λ f. f ≡ at_level level (spec.reverse_levels self.now sym)) }
    {
        self.selected_each(alloc, self.tree().selectors(sym), level)
    }

    /// That the condition of a default is n.
    fn passed(&self, alloc: Global, default: &DefaultOf) -> Result<Formula, AllocError>
        ensures { IfOk result (λ f. f ≡ spec.is_passed self.now default.now) }
    {
        let condition = self.condition(alloc, &default.cond, Level::NotN)?;
        not_of(alloc, condition)
    }

    /// That the defaults before this one are passed over, and this one gives no n, or y.
    fn default_part(
        &self,
        alloc: Global,
        passed: &[Formula],
        default: &DefaultOf,
        level: Level,
    ) -> Result<Formula, AllocError>
        ensures { IfOk result (λ f. f ≡ spec.default_part self.now level passed.now default.now) }
    {
        let mut all = copies(alloc, passed)?;
        all.push(self.condition(alloc, &default.cond, level)?)?;
        all.push(self.formula_in(alloc, Place::Value, &default.value, level)?)?;
        Ok(all_of(all))
    }

    /// That the first default whose condition isn't n gives no n, or y.
    fn first_default(
        &self,
        alloc: Global,
        defaults: &[DefaultOf],
        level: Level,
    ) -> Result<Formula, AllocError>
        ensures { IfOk result (λ f. f ≡ spec.default_at self.now level defaults.now) }
    {
        let mut passed = Vec::new(alloc);
        let mut parts = Vec::with_capacity(alloc, defaults.len())?;
        for default in defaults {
            parts.push(self.default_part(alloc, &passed, default, level)?)?;
            passed.push(self.passed(alloc, default)?)?;
        }
        Ok(any_of(parts))
    }

    /// The formula of a symbol's default, where nothing implies it.
    fn own_default(&self, alloc: Global, sym: u32, level: Level) -> Result<Formula, AllocError>
        requires { sym < length self.now.shape.symbols }
        ensures { IfOk result (λ f. f ≡ at_level level (spec.first_levels self.now (symbol_at self.now.shape sym).defaults)) }
    {
        self.first_default(alloc, self.tree().symbol_at(sym).defaults.as_slice(), level)
    }

    /// The formula of a symbol's direct dependency.
    fn direct(&self, alloc: Global, sym: u32, level: Level) -> Result<Formula, AllocError>
        requires { sym < length self.now.shape.symbols }
        ensures { IfOk result (λ f. f ≡ at_level level (spec.greatest_levels self.now (symbol_at self.now.shape sym).places)) }
    {
        self.greatest_formula(alloc, self.tree().symbol_at(sym).places.as_slice(), level)
    }

    /// That the symbol isn't implied, and its own default isn't n, or is y.
    fn unimplied(
        &self,
        alloc: Global,
        sym: u32,
        impliers: &[Selector],
        level: Level,
    ) -> Result<Formula, AllocError>
        requires sym { sym < length self.now.shape.symbols }
        requires impliers { All (IsImplier self.now.shape) impliers.now }
        ensures { IfOk result (λ f. f ≡ fold.all_of (fold.not_of (spec.reverse_at self.now Level.NotN (map (implying_of self.now.shape) impliers.now)) ∷ at_level level (spec.first_levels self.now (symbol_at self.now.shape sym).defaults) ∷ [])) }
    {
        let unimplied = not_of(alloc, self.implied_each(alloc, impliers, Level::NotN)?)?;
        let own = self.own_default(alloc, sym, level)?;
        Ok(all_of(vec![in alloc; unimplied, own]?))
    }

    /// That the default of an implied symbol isn't n.
    fn weakened_not_n(
        &self,
        alloc: Global,
        sym: u32,
        impliers: &[Selector],
    ) -> Result<Formula, AllocError>
        requires sym { sym < length self.now.shape.symbols }
        requires impliers { All (IsImplier self.now.shape) impliers.now }
        ensures { IfOk result (λ f. f ≡ (spec.weakened (spec.selecting_levels self.now (map (implying_of self.now.shape) impliers.now)) (spec.greatest_levels self.now (symbol_at self.now.shape sym).places) (spec.first_levels self.now (symbol_at self.now.shape sym).defaults)).not_n) }
    {
        let implied = self.implied_each(alloc, impliers, Level::NotN)?;
        let direct = self.direct(alloc, sym, Level::NotN)?;
        let with = all_of(vec![in alloc; implied, direct]?);
        let without = self.unimplied(alloc, sym, impliers, Level::NotN)?;
        Ok(any_of(vec![in alloc; with, without]?))
    }

    /// That the default of an implied symbol is y.
    fn weakened_is_y(
        &self,
        alloc: Global,
        sym: u32,
        impliers: &[Selector],
    ) -> Result<Formula, AllocError>
        requires sym { sym < length self.now.shape.symbols }
        requires impliers { All (IsImplier self.now.shape) impliers.now }
        ensures { IfOk result (λ f. f ≡ (spec.weakened (spec.selecting_levels self.now (map (implying_of self.now.shape) impliers.now)) (spec.greatest_levels self.now (symbol_at self.now.shape sym).places) (spec.first_levels self.now (symbol_at self.now.shape sym).defaults)).is_y) }
    {
        let implied = self.implied_each(alloc, impliers, Level::NotN)?;
        let own = self.own_default(alloc, sym, Level::IsY)?;
        let implied_y = self.implied_each(alloc, impliers, Level::IsY)?;
        let raised = any_of(vec![in alloc; own, implied_y]?);
        let direct = self.direct(alloc, sym, Level::IsY)?;
        let with = all_of(vec![in alloc; implied, raised, direct]?);
        let without = self.unimplied(alloc, sym, impliers, Level::IsY)?;
        Ok(any_of(vec![in alloc; with, without]?))
    }

    /// The formula of the default of an implied symbol.
    fn weakened(
        &self,
        alloc: Global,
        sym: u32,
        impliers: &[Selector],
        level: Level,
    ) -> Result<Formula, AllocError>
        requires sym { sym < length self.now.shape.symbols }
        requires impliers { All (IsImplier self.now.shape) impliers.now }
        ensures { IfOk result (λ f. f ≡ at_level level (spec.weakened (spec.selecting_levels self.now (map (implying_of self.now.shape) impliers.now)) (spec.greatest_levels self.now (symbol_at self.now.shape sym).places) (spec.first_levels self.now (symbol_at self.now.shape sym).defaults))) }
    {
        match level {
            Level::NotN => self.weakened_not_n(alloc, sym, impliers),
            Level::IsY => self.weakened_is_y(alloc, sym, impliers),
        }
    }

    /// The formula of a symbol's default, given what implies it.
    fn default_by(
        &self,
        alloc: Global,
        sym: u32,
        impliers: &[Selector],
        level: Level,
    ) -> Result<Formula, AllocError>
        requires sym { sym < length self.now.shape.symbols }
        requires impliers { All (IsImplier self.now.shape) impliers.now }
        ensures { IfOk result (λ f. f ≡ at_level level (spec.default_by self.now sym (map (implying_of self.now.shape) impliers.now))) }
    {
        if impliers.is_empty() {
            self.own_default(alloc, sym, level)
        } else {
            self.weakened(alloc, sym, impliers, level)
        }
    }

    /// The formula of a symbol's default.
    pub fn default(&self, alloc: Global, sym: u32, level: Level) -> Result<Formula, AllocError>
        requires { sym < length self.now.shape.symbols }
        ensures { IfOk result (λ f. f ≡ at_level level (spec.default_levels self.now sym)) }
    {
        self.default_by(alloc, sym, self.tree().impliers(sym), level)
    }
}
