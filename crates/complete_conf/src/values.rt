ghost use Rattle.std.specs.Prelude.{◌≡◌, ◌<◌, length, map};
ghost use Rattle.ut_logic.specs.Trit.{rank};
ghost use Rattle.kconf_tree.specs.Value as spec;
ghost use Rattle.complete_conf.specs.Config.{by_lists};

use crate::config::Config;
use crate::outer_truths::{comparison_value, outer_value};
use kconf_entries::{Expr, Side, Sign};
use kconf_tree::{Counts, Place, Tree};
use ut_logic::{Text, Trit, trit_and, trit_not, trit_or};

/// The value that a symbol stands for.
pub fn own_value(tree: &Tree, config: &Config, sym: u32) -> Trit
    requires { sym < length tree.now.shape.symbols }
    ensures { rank result ≡ spec.own_value tree.now.shape (by_lists config.now) sym }
{
    match tree.counts_as(sym) {
        Counts::Bool | Counts::Tristate => config.value(sym),
        Counts::Neither => Trit::N,
    }
}

/// The value that a name stands for.
fn name_value(tree: &Tree, config: &Config, name: &Text) -> Trit
    ensures { rank result ≡ spec.name_value tree.now.shape (by_lists config.now) name.now }
{
    match tree.symbol(name.text()) {
        None => Trit::N,
        Some(sym) => own_value(tree, config, sym),
    }
}

/// Whether the modules symbol isn't n.
pub fn has_modules(tree: &Tree, config: &Config) -> bool
    ensures { result ≡ spec.has_modules tree.now.shape (by_lists config.now) }
{
    match tree.modules() {
        None => false,
        Some(sym) => config.value(sym) != Trit::N,
    }
}

/// The value of a constant.
fn const_value(tree: &Tree, config: &Config, place: Place, trit: Trit) -> Trit
    ensures { rank result ≡ spec.const_value tree.now.shape (by_lists config.now) place trit }
{
    match trit {
        Trit::N => Trit::N,
        Trit::M => match place {
            Place::Value => Trit::M,
            Place::Condition => {
                if has_modules(tree, config) {
                    Trit::M
                } else {
                    Trit::N
                }
            }
        },
        Trit::Y => Trit::Y,
    }
}

/// The value of a side of a comparison.
fn side_value(tree: &Tree, config: &Config, side: &Side) -> Trit
    ensures { rank result ≡ spec.side_value tree.now.shape (by_lists config.now) side.now }
{
    match side {
        Side::Const(trit) => *trit,
        Side::Name(name) => name_value(tree, config, name),
        Side::Literal(_) | Side::Quoted(_) => Trit::N,
    }
}

/// y where the comparison of two values holds, else n.
fn compared(sign: Sign, a: Trit, b: Trit) -> Trit
    ensures { rank result ≡ spec.compared sign (rank a) (rank b) }
{
    let same = match sign {
        Sign::Same => a == b,
        Sign::Differ | Sign::Less | Sign::More | Sign::LessSame | Sign::MoreSame => a != b,
    };
    if same { Trit::Y } else { Trit::N }
}

/// The value of a comparison.
fn compare_value(tree: &Tree, config: &Config, left: &Side, sign: Sign, right: &Side) -> Trit
    ensures { rank result ≡ spec.comparison_value tree.now.shape (by_lists config.now) left.now sign right.now (spec.comparison_of tree.now.shape left.now sign right.now) }
{
    if tree.compares_trits(left, sign, right) {
        let left = side_value(tree, config, left);
        let right = side_value(tree, config, right);
        compared(sign, left, right)
    } else {
        comparison_value(tree, config, left, sign, right)
    }
}

/// The least value of a list.
#[cycle(value)]
fn least_of(tree: &Tree, config: &Config, place: Place, list: &[Expr]) -> Trit
    ensures { rank result ≡ spec.least (map (spec.value_in tree.now.shape (by_lists config.now) place) list.now) }
{
    let mut least = Trit::Y;
    for part in list {
        least = trit_and(least, value_in(tree, config, place, part));
    }
    least
}

/// The greatest value of a list.
#[cycle(value)]
pub fn greatest_of(tree: &Tree, config: &Config, place: Place, list: &[Expr]) -> Trit
    ensures { rank result ≡ spec.greatest (map (spec.value_in tree.now.shape (by_lists config.now) place) list.now) }
{
    let mut greatest = Trit::N;
    for part in list {
        greatest = trit_or(greatest, value_in(tree, config, place, part));
    }
    greatest
}

/// The value of an expression at a place.
#[cycle(value)]
pub fn value_in(tree: &Tree, config: &Config, place: Place, e: &Expr) -> Trit
    ensures { rank result ≡ spec.value_in tree.now.shape (by_lists config.now) place e.now }
{
    match e {
        Expr::Const(trit) => const_value(tree, config, place, *trit),
        Expr::Name(name) => name_value(tree, config, name),
        Expr::Outer(text) => outer_value(tree, config, text.text()),
        Expr::Compare { left, sign, right } => compare_value(tree, config, left, *sign, right),
        Expr::Neg(inner) => trit_not(value_in(tree, config, place, inner.get())),
        Expr::And(list) => least_of(tree, config, place, list.as_slice()),
        Expr::Or(list) => greatest_of(tree, config, place, list.as_slice()),
    }
}
