ghost use Rattle.std.specs.Prelude.{◌≡◌};
ghost use Rattle.kconf_constr.specs.Scope as spec;

use kconf_tree::Tree;
use std::marker::Model;
use ut_logic::Text;

/// Where an expression is read: a tree, and the undeclared names that may be read as y, rising by their bytes.
#[derive(Drop)]
pub struct Scope<'a> {
    tree: &'a Tree,
    undeclared: &'a [Text],
}

impl<'a> Model for Scope<'a> {
    ghost use Rattle.kconf_constr.specs.Scope.{Scope, IsRising};
    ghost use Rattle.kconf_entries.specs.contracts.expr.Expr as e;
    ghost use Rattle.std.specs.Coded.{codes};

    ghost Value = { Scope };

    ghost coded = { Prim.hlevel (codes, e.the_row.coded) };

    ghost view = { λ s. record { shape = s.tree.now.shape; undeclared = s.undeclared.now } };

    ghost invariant = { λ s. IsRising s.undeclared.now };
}

impl<'a> Scope<'a> {
    /// The scope in which every undeclared name is n.
    pub fn whole(tree: &'a Tree) -> Scope<'a>
        ensures { result ≡ spec.whole tree.now.shape }
    {
        Scope {
            tree,
            undeclared: &[],
        }
    }

    /// The scope in which these undeclared names may be y.
    pub fn with_undeclared(tree: &'a Tree, undeclared: &'a [Text]) -> Scope<'a>
        requires { spec.IsRising undeclared.now }
        ensures { result ≡ spec.with_undeclared tree.now.shape undeclared.now }
    {
        Scope { tree, undeclared }
    }

    /// The tree.
    pub fn tree(&self) -> &Tree
        ensures { result.now.shape ≡ self.now.shape }
    {
        self.tree
    }

    /// The number of an undeclared name that may be y.
    pub fn undeclared_number(&self, name: &Text) -> Option<u64>
        ensures { result ≡ spec.number_among self.now.undeclared name.now }
    {
        match self.undeclared.binary_search(name) {
            Ok(place) => Some(place as u64),
            Err(_) => None,
        }
    }
}
