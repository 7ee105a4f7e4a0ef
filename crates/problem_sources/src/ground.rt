ghost use Rattle.std.specs.Prelude.{◌≡◌, ◌<◌, [], IfOk, IfSome, length};
ghost use Rattle.ut_text.specs.Text.{text_eq};
ghost use Rattle.kconf_constr.specs.Scope.{number_among};
ghost use Rattle.cpp_blocks.specs.Mentions.{firsts};
ghost use Rattle.ut_case.specs.Posed.{AreRules};

use indexmap::IndexSet;
use kconf_tree::Tree;
use std::alloc::{AllocError, Global};
use std::marker::Model;
use ut_logic::{Formula, Rules, Text};

/// What configurations must keep: a tree of Kconfig texts, or the rules of a model text.
#[derive(Drop)]
pub enum Ground {
    Tree(Tree),
    Rules(NamedRules),
}

/// The rules of a model text, whose names are found by their texts. A contract sees the rules.
#[derive(Drop)]
pub struct NamedRules {
    rules: Rules,
    names: IndexSet<Text>,
}

impl Model for NamedRules {
    ghost use Rattle.ut_logic.specs.declared.facts.Rules.{Rules};
    ghost use Rattle.ut_logic.specs.contracts.formula.Formula as e;
    ghost use Rattle.std.specs.Coded.{codes};
    ghost use Rattle.problem_sources.specs.Named.{AreNamed};

    ghost Value = { Rules };

    ghost coded = { Prim.hlevel (codes, e.the_row.coded) };

    ghost view = { λ n. n.rules };

    ghost invariant = { λ n. AreNamed n.rules n.names.keys };
}

impl NamedRules {
    /// These rules. The only error is want of memory, which more names than a `u32` counts come to as well.
    pub fn of(alloc: Global, rules: Rules) -> Result<NamedRules, AllocError>
        requires { AreRules rules }
        ensures { IfOk result (λ named. named ≡ rules) }
    {
        let names = set_of(alloc, rules.names.as_slice())?;
        if rules.names.len() > u32::MAX as usize {
            return Err(AllocError);
        }
        Ok(NamedRules { rules, names })
    }

    /// The rules.
    pub fn rules(&self) -> &Rules
        ensures value { result.now ≡ self.now }
        ensures rules { AreRules self.now }
    {
        &self.rules
    }

    /// The formulas that hold.
    pub fn holds(&self) -> &[Formula]
        ensures { result.now ≡ self.now.holds }
    {
        self.rules.holds.as_slice()
    }

    /// How many names there are.
    pub fn count(&self) -> u32
        ensures { result ≡ length self.now.names }
    {
        self.rules.names.len() as u32
    }

    /// The number of a name.
    pub fn number(&self, name: &Text) -> Option<u32>
        ensures number { result ≡ number_among self.now.names name.now }
        ensures within { IfSome result (λ k. k < length self.now.names) }
    {
        match self.names.get_index_of(name) {
            Some(place) => Some(place as u32),
            None => None,
        }
    }
}

/// The names as a set; each stands once.
fn set_of(alloc: Global, names: &[Text]) -> Result<IndexSet<Text>, AllocError>
    ensures { IfOk result (λ set. set.keys ≡ firsts text_eq [] names.now) }
{
    let mut set = IndexSet::with_capacity(alloc, names.len())?;
    for name in names {
        set.insert(name.copy(alloc)?)?;
    }
    Ok(set)
}
