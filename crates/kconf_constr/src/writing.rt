//! The formula that a symbol of texts or numbers is written.

ghost use Rattle.std.specs.Prelude.{◌≡◌, ◌<◌, ◌++◌, IfOk, OnOk, length, map};
ghost use Rattle.kconf_constr.specs.Scope.{IsRising, whole, with_undeclared};
ghost use Rattle.kconf_constr.specs.PropertyFormulas as spec;
ghost use Rattle.kconf_constr.specs.Closed.{MentionsOwn};
ghost use Rattle.kconf_constr.specs.Meaning.{SaysWritten};

use crate::level::Level;
use crate::scope::Scope;
use kconf_entries::DefaultOf;
use kconf_tree::{Place, Tree};
use std::alloc::{AllocError, Global};
use ut_logic::{Formula, Text, any_of};

impl<'a> Scope<'a> {
    /// Adds that the conditions of defaults aren't n.
    fn add_defaults(
        &self,
        alloc: Global,
        defaults: &[DefaultOf],
        formulas: &mut Vec<Formula>,
    ) -> Result<(), AllocError>
        ensures { OnOk result (formulas.new.items ≡ formulas.old.items ++ map (spec.default_counts self.now) defaults.now) }
    {
        for default in defaults {
            formulas.push(self.condition(alloc, &default.cond, Level::NotN)?)?;
        }
        Ok(())
    }

    /// That some prompt's or some default's condition isn't n.
    fn written(&self, alloc: Global, sym: u32) -> Result<Formula, AllocError>
        requires { sym < length self.now.shape.symbols }
        ensures { IfOk result (λ f. f ≡ spec.written_formula self.now sym) }
    {
        let symbol = self.tree().symbol_at(sym);
        let mut formulas = self.formulas_in(
            alloc,
            Place::Condition,
            symbol.prompts.as_slice(),
            Level::NotN,
        )?;
        self.add_defaults(alloc, symbol.defaults.as_slice(), &mut formulas)?;
        Ok(any_of(formulas))
    }
}

/// That a symbol of texts or numbers is written, where every undeclared name is n. The only error is out of memory.
pub fn written(alloc: Global, tree: &Tree, sym: u32) -> Result<Formula, AllocError>
    requires { sym < length tree.now.shape.symbols }
    ensures formula { IfOk result (λ f. f ≡ spec.written_formula (whole tree.now.shape) sym) }
    ensures mentions { IfOk result (MentionsOwn (whole tree.now.shape) sym) }
    ensures means { IfOk result (SaysWritten (whole tree.now.shape) sym) }
{
    Scope::whole(tree).written(alloc, sym)
}

/// That a symbol of texts or numbers is written, where each of these undeclared names, which rise by their bytes, may
/// be y. The only error is out of memory.
pub fn free_written(
    alloc: Global,
    tree: &Tree,
    undeclared: &[Text],
    sym: u32,
) -> Result<Formula, AllocError>
    requires rising { IsRising undeclared.now }
    requires sym { sym < length tree.now.shape.symbols }
    ensures formula { IfOk result (λ f. f ≡ spec.written_formula (with_undeclared tree.now.shape undeclared.now) sym) }
    ensures mentions { IfOk result (MentionsOwn (with_undeclared tree.now.shape undeclared.now) sym) }
    ensures means { IfOk result (SaysWritten (with_undeclared tree.now.shape undeclared.now) sym) }
{
    Scope::with_undeclared(tree, undeclared).written(alloc, sym)
}
