ghost use Rattle.std.specs.Prelude.{◌≡◌, ◌<◌, IfOk, length, option_map, slice_index_or, []};
ghost use Rattle.std.specs.List.{position_or_len};
ghost use Rattle.ut_text.specs.Text.{text_eq};
ghost use Rattle.kconf_constr.specs.Scope.{IsRising};
ghost use Rattle.ut_case.specs.StartFormulas.{undeclared_in};
ghost use Rattle.ut_case.specs.Numbering as numbers;
ghost use Rattle.ut_case.specs.Facts.{rules_for};
ghost use Rattle.ut_case.specs.Problem.{OfTree, OfRules};
ghost use Rattle.problem_sources.specs.Grounds.{IsSharedOf, basis_of, rule_names, rules_in, tree_in};

use crate::ground::Ground;
use crate::numbering::outers_of;
use crate::outer_numbers::{first_outer, first_outers, kbuild_place};
use crate::source::Source;
use crate::undeclared::undeclared_of;
use indexmap::IndexSet;
use kbuild_files::FileConds;
use kconf_tree::Tree;
use std::alloc::{AllocError, Global};
use std::marker::Model;
use ut_case::Family;
use ut_logic::{Formula, Rules, Text};

/// The ground of a problem, with the numbers of outer conditions and of undeclared names: what is said of a source rests on
/// this and on the source alone.
#[derive(Drop)]
pub struct Shared {
    ground: Ground,
    /// The outer conditions of Kbuild texts that the ground does not have.
    more: IndexSet<Text>,
    /// How many outer conditions there are in all.
    outers: u64,
    undeclared: Vec<Text>,
}

impl Model for Shared {
    ghost use Rattle.std.specs.Prelude.{◌++◌};
    ghost use Rattle.kconf_entries.specs.contracts.expr.Expr as e;
    ghost use Rattle.ut_logic.specs.contracts.formula.Formula as f;
    ghost use Rattle.std.specs.Coded.{codes};
    ghost use Rattle.ut_case.specs.Numbering.{Shared, basis_outers};
    ghost use Rattle.problem_sources.specs.Counted.{IsCounted};
    ghost use Rattle.problem_sources.specs.Grounds.{basis_of};

    ghost Value = { Shared };

    ghost coded = { Prim.hlevel (codes, e.the_row.coded, f.the_row.coded) };

    ghost view = { λ s. record { basis = basis_of s.ground; outers = basis_outers (basis_of s.ground) ++ s.more.keys; undeclared = s.undeclared.items } };

    ghost invariant = { λ s. IsCounted (basis_outers (basis_of s.ground)) s.more.keys s.outers s.undeclared.items };
}

impl Shared {
    /// What these sources share. The only error is want of memory.
    pub fn of(
        alloc: Global,
        ground: Ground,
        conds: &FileConds,
        sources: &[Source],
    ) -> Result<Shared, AllocError>
        ensures shared { IfOk result (λ s. IsSharedOf (basis_of ground) conds.now sources.now s) }
        ensures basis { IfOk result (λ s. s.basis ≡ basis_of ground) }
    {
        let more = outers_of(alloc, &ground, conds, sources)?;
        let outers = first_outers(&ground)
            .checked_add(more.len() as u64)
            .ok_or(AllocError)?;
        let undeclared = undeclared_of(alloc, &ground, conds, sources)?;
        Ok(Shared {
            ground,
            more,
            outers,
            undeclared,
        })
    }

    /// The ground.
    pub fn ground(&self) -> &Ground
        ensures { basis_of result.now ≡ self.now.basis }
    {
        &self.ground
    }

    /// The tree, where the problem was made from one.
    pub fn tree(&self) -> Option<&Tree>
        ensures { option_map (λ t. OfTree t.now.shape) result ≡ tree_in self.now.basis }
    {
        match &self.ground {
            Ground::Tree(tree) => Some(tree),
            Ground::Rules(_) => None,
        }
    }

    /// The rules, where the problem was made from a model text.
    pub fn rules(&self) -> Option<&Rules>
        ensures { option_map (λ r. OfRules r.now) result ≡ rules_in self.now.basis }
    {
        match &self.ground {
            Ground::Tree(_) => None,
            Ground::Rules(named) => Some(named.rules()),
        }
    }

    /// How many names a model text has; a tree has none of these.
    pub fn names(&self) -> u32
        ensures { result ≡ length (rule_names self.now.basis) }
    {
        match &self.ground {
            Ground::Tree(_) => 0,
            Ground::Rules(named) => named.count(),
        }
    }

    /// The formulas of a model text that hold in a family; in family Code none does.
    pub fn held(&self, family: Family) -> &[Formula]
        ensures { result.now ≡ rules_for family self.now.basis }
    {
        match (family, &self.ground) {
            (Family::Code, Ground::Tree(_) | Ground::Rules(_)) => &[],
            (Family::Kconfig | Family::Whole, Ground::Tree(_)) => &[],
            (Family::Kconfig | Family::Whole, Ground::Rules(named)) => named.holds(),
        }
    }

    /// How many outer conditions there are, those of Kbuild texts included.
    pub fn outers(&self) -> u64
        ensures { result ≡ length self.now.outers }
    {
        self.outers
    }

    /// The text of an outer condition.
    pub fn outer(&self, n: u64) -> &str
        requires { n < length self.now.outers }
        ensures { result.now ≡ slice_index_or self.now.outers n [] }
    {
        let first = first_outers(&self.ground);
        if n < first {
            first_outer(&self.ground, n)
        } else {
            self.more.as_slice()[(n - first) as usize].text()
        }
    }

    /// The number of the outer condition of a free step with this text.
    pub fn kbuild_number(&self, alloc: Global, text: &Text) -> Result<u64, AllocError>
        ensures { IfOk result (λ k. k ≡ position_or_len (text_eq (numbers.kbuild_text text.now)) self.now.outers) }
    {
        kbuild_place(alloc, &self.ground, &self.more, text)
    }

    /// The undeclared names, rising by their bytes.
    pub fn undeclared(&self) -> &[Text]
        ensures value { result.now ≡ self.now.undeclared }
        ensures rising { IsRising self.now.undeclared }
    {
        self.undeclared.as_slice()
    }

    /// The undeclared names that a family reads as n or y.
    pub fn undeclared_in(&self, family: Family) -> &[Text]
        ensures value { result.now ≡ undeclared_in self.now family }
        ensures rising { IsRising result.now }
    {
        match family {
            Family::Code => &[],
            Family::Kconfig => self.undeclared.as_slice(),
            Family::Whole => &[],
        }
    }
}
