//! The formulas that a symbol holds.

ghost use Rattle.std.specs.Prelude.{◌≡◌, ◌<◌, IfOk, length};
ghost use Rattle.kconf_constr.specs.Levels.{modules_formula as on};
ghost use Rattle.kconf_constr.specs.SymbolFormulas as spec;

use crate::expressions::modules_formula;
use crate::level::Level;
use crate::scope::Scope;
use kconf_tree::Counts;
use std::alloc::{AllocError, Global};
use ut_logic::{Formula, Item, any_of, not_of};

/// The symbol is y.
fn y(sym: u32) -> Formula
    ensures { result ≡ Formula.Is (Item.SymY sym) }
{
    Formula::Is(Item::SymY(sym))
}

/// The symbol is m.
fn m(sym: u32) -> Formula
    ensures { result ≡ Formula.Is (Item.SymM sym) }
{
    Formula::Is(Item::SymM(sym))
}

impl<'a> Scope<'a> {
    /// That a selected symbol isn't n.
    fn raised(&self, alloc: Global, sym: u32) -> Result<Formula, AllocError>
        requires { sym < length self.now.shape.symbols }
        ensures { IfOk result (λ f. f ≡ spec.raised (spec.properties_of self.now sym)) }
    {
        let unselected = not_of(alloc, self.reverse(alloc, sym, Level::NotN)?)?;
        let own = self.own_formula(alloc, sym, Level::NotN)?;
        Ok(any_of(vec![in alloc; unselected, own]?))
    }

    /// That a symbol that isn't n is visible, has a default or is selected.
    fn allowed(&self, alloc: Global, sym: u32) -> Result<Formula, AllocError>
        requires { sym < length self.now.shape.symbols }
        ensures { IfOk result (λ f. f ≡ spec.allowed (spec.properties_of self.now sym)) }
    {
        let unset = not_of(alloc, self.own_formula(alloc, sym, Level::NotN)?)?;
        let visible = self.visibility(alloc, sym, Level::NotN)?;
        let default = self.default(alloc, sym, Level::NotN)?;
        let selected = self.reverse(alloc, sym, Level::NotN)?;
        Ok(any_of(vec![in alloc; unset, visible, default, selected]?))
    }

    /// That the default counts where no prompt is visible.
    fn kept(&self, alloc: Global, sym: u32) -> Result<Formula, AllocError>
        requires { sym < length self.now.shape.symbols }
        ensures { IfOk result (λ f. f ≡ spec.kept (spec.properties_of self.now sym)) }
    {
        let visible = self.visibility(alloc, sym, Level::NotN)?;
        let no_default = not_of(alloc, self.default(alloc, sym, Level::NotN)?)?;
        let own = self.own_formula(alloc, sym, Level::NotN)?;
        Ok(any_of(vec![in alloc; visible, no_default, own]?))
    }

    /// That the symbol isn't n exactly where some setting makes it so.
    fn base_holds(&self, alloc: Global, sym: u32) -> Result<Vec<Formula>, AllocError>
        requires { sym < length self.now.shape.symbols }
        ensures { IfOk result (λ v. v.items ≡ spec.base_holds (spec.properties_of self.now sym)) }
    {
        let raised = self.raised(alloc, sym)?;
        let allowed = self.allowed(alloc, sym)?;
        let kept = self.kept(alloc, sym)?;
        Ok(vec![in alloc; raised, allowed, kept]?)
    }

    /// That a tristate symbol has one value, and m only with modules.
    fn one_holds(&self, alloc: Global, sym: u32) -> Result<Vec<Formula>, AllocError>
        ensures { IfOk result (λ v. v.items ≡ spec.one_holds (on self.now.shape.modules) sym) }
    {
        let not_y = not_of(alloc, y(sym))?;
        let not_m = not_of(alloc, m(sym))?;
        let one = any_of(vec![in alloc; not_y, not_m]?);
        let not_m = not_of(alloc, m(sym))?;
        let modules = modules_formula(self.tree().modules());
        let with_modules = any_of(vec![in alloc; not_m, modules]?);
        Ok(vec![in alloc; one, with_modules]?)
    }

    /// That a symbol selected by y is y.
    fn y_raised(&self, alloc: Global, sym: u32) -> Result<Formula, AllocError>
        requires { sym < length self.now.shape.symbols }
        ensures { IfOk result (λ f. f ≡ spec.y_raised sym (spec.properties_of self.now sym)) }
    {
        let unselected = not_of(alloc, self.reverse(alloc, sym, Level::IsY)?)?;
        Ok(any_of(vec![in alloc; unselected, y(sym)]?))
    }

    /// That a symbol that is y has a visibility, default or reverse dependency of y, unless modules are off.
    fn y_allowed(&self, alloc: Global, sym: u32) -> Result<Formula, AllocError>
        requires { sym < length self.now.shape.symbols }
        ensures { IfOk result (λ f. f ≡ spec.y_allowed (on self.now.shape.modules) sym (spec.properties_of self.now sym)) }
    {
        let not_y = not_of(alloc, y(sym))?;
        let visible = self.visibility(alloc, sym, Level::IsY)?;
        let default = self.default(alloc, sym, Level::IsY)?;
        let selected = self.reverse(alloc, sym, Level::IsY)?;
        let without = not_of(alloc, modules_formula(self.tree().modules()))?;
        Ok(any_of(vec![in alloc; not_y, visible, default, selected, without]?))
    }

    /// That a default y counts where no prompt is visible.
    fn y_kept(&self, alloc: Global, sym: u32) -> Result<Formula, AllocError>
        requires { sym < length self.now.shape.symbols }
        ensures { IfOk result (λ f. f ≡ spec.y_kept sym (spec.properties_of self.now sym)) }
    {
        let visible = self.visibility(alloc, sym, Level::NotN)?;
        let no_default = not_of(alloc, self.default(alloc, sym, Level::IsY)?)?;
        Ok(any_of(vec![in alloc; visible, no_default, y(sym)]?))
    }

    /// That a tristate symbol is y exactly where some setting makes it so.
    fn y_holds(&self, alloc: Global, sym: u32) -> Result<Vec<Formula>, AllocError>
        requires { sym < length self.now.shape.symbols }
        ensures { IfOk result (λ v. v.items ≡ spec.y_holds (on self.now.shape.modules) sym (spec.properties_of self.now sym)) }
    {
        let raised = self.y_raised(alloc, sym)?;
        let allowed = self.y_allowed(alloc, sym)?;
        let kept = self.y_kept(alloc, sym)?;
        Ok(vec![in alloc; raised, allowed, kept]?)
    }

    /// The formulas that hold for a tristate symbol.
    fn tristate_holds(&self, alloc: Global, sym: u32) -> Result<Vec<Formula>, AllocError>
        requires { sym < length self.now.shape.symbols }
        ensures { IfOk result (λ v. v.items ≡ spec.holds_as Counts.Tristate (on self.now.shape.modules) sym (spec.properties_of self.now sym)) }
    {
        let mut holds = self.one_holds(alloc, sym)?;
        let mut base = self.base_holds(alloc, sym)?;
        let mut more = self.y_holds(alloc, sym)?;
        holds.append(&mut base)?;
        holds.append(&mut more)?;
        Ok(holds)
    }

    /// The formulas that hold for a symbol that is no member of a choice.
    fn non_member_holds(&self, alloc: Global, sym: u32) -> Result<Vec<Formula>, AllocError>
        requires { sym < length self.now.shape.symbols }
        ensures { IfOk result (λ v. v.items ≡ spec.non_member_holds self.now sym) }
    {
        match self.tree().counts_as(sym) {
            Counts::Bool => self.base_holds(alloc, sym),
            Counts::Tristate => self.tristate_holds(alloc, sym),
            Counts::Neither => Ok(Vec::new(alloc)),
        }
    }

    /// The formulas that hold for a symbol; none for a member of a choice. The only error is out of memory.
    pub fn symbol_holds(&self, alloc: Global, sym: u32) -> Result<Vec<Formula>, AllocError>
        requires { sym < length self.now.shape.symbols }
        ensures { IfOk result (λ v. v.items ≡ spec.symbol_holds self.now sym) }
    {
        match self.tree().member_of(sym) {
            None => self.non_member_holds(alloc, sym),
            Some(_) => Ok(Vec::new(alloc)),
        }
    }
}
