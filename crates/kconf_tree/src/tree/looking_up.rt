ghost use Rattle.std.specs.Prelude.{◌≡◌, ◌<◌, length, map, All, IfSome};
ghost use Rattle.kconf_tree.specs.Shape as spec;
ghost use Rattle.kconf_tree.specs.Value as value;
ghost use Rattle.kconf_tree.specs.Valid.{choice_counts};
ghost use Rattle.kconf_entries.specs.Written.{comparison_text};

use crate::links::Link;
use crate::node_references::counts_alone;
use crate::shape::{Counts, Selector};
use crate::tree::Tree;
use kconf_entries::{Expr, Side, Sign};

impl Tree {
    /// The selects of a symbol by others, in order of declaration: who selects it, and the place of the select
    /// among `selects` of that symbol.
    pub fn selectors(&self, sym: u32) -> &[Selector]
        requires { sym < length self.now.shape.symbols }
        ensures value { map (spec.selecting_of self.now.shape) result.now ≡ spec.selectors_of self.now.shape sym }
        ensures within { All (spec.IsSelector self.now.shape) result.now }
    {
        self.links.selects[sym as usize].as_slice()
    }

    /// The full condition of a select.
    pub fn select_condition(&self, selector: Selector) -> &Expr
        requires { spec.IsSelector self.now.shape selector }
        ensures { result.now ≡ (spec.selecting_of self.now.shape selector).cond }
    {
        self.parts.condition(Link::Selects, selector)
    }

    /// The implies of a symbol by others, in order of declaration: who implies it, and the place of the imply
    /// among `implies` of that symbol.
    pub fn impliers(&self, sym: u32) -> &[Selector]
        requires { sym < length self.now.shape.symbols }
        ensures value { map (spec.implying_of self.now.shape) result.now ≡ spec.impliers_of self.now.shape sym }
        ensures within { All (spec.IsImplier self.now.shape) result.now }
    {
        self.links.implies[sym as usize].as_slice()
    }

    /// The full condition of an imply.
    pub fn imply_condition(&self, implier: Selector) -> &Expr
        requires { spec.IsImplier self.now.shape implier }
        ensures { result.now ≡ (spec.implying_of self.now.shape implier).cond }
    {
        self.parts.condition(Link::Implies, implier)
    }

    /// What a symbol counts as: the modules symbol as bool, a member by its choice, every other by its
    /// own type.
    pub fn counts_as(&self, sym: u32) -> Counts
        requires { sym < length self.now.shape.symbols }
        ensures { result ≡ spec.counts_as self.now.shape sym }
    {
        self.parts.counts_as(sym)
    }

    /// What a choice counts as, by its type.
    pub fn choice_counts(&self, choice: u32) -> Counts
        requires { choice < length self.now.shape.choices }
        ensures { result ≡ choice_counts self.now.shape choice }
    {
        counts_alone(self.parts.choice_at(choice).kind)
    }

    /// Whether a comparison compares two of the three values; any other comparison is an outer condition.
    pub fn compares_trits(&self, left: &Side, sign: Sign, right: &Side) -> bool
        ensures { result ≡ value.compares_trits self.now.shape left.now sign right.now }
    {
        self.parts.compares_trits(left, sign, right)
    }

    /// The number of the outer condition with this text, if any.
    pub fn outer_number(&self, text: &str) -> Option<u64>
        ensures number { result ≡ spec.outer_at self.now.shape text.now }
        ensures within { IfSome result (λ n. n < length self.now.shape.outers) }
    {
        self.parts.outer_number(text)
    }

    /// The number of the outer condition that is this comparison, if any. Allocates nothing.
    pub fn comparison_number(&self, left: &Side, sign: Sign, right: &Side) -> Option<u64>
        ensures number { result ≡ spec.outer_at self.now.shape (comparison_text left.now sign right.now) }
        ensures within { IfSome result (λ n. n < length self.now.shape.outers) }
    {
        self.parts.comparison_number(left, sign, right)
    }
}
