ghost use Rattle.std.specs.Prelude.{◌≡◌, IfOk};

use sqlite_items::{Boxed, Items};
use std::alloc::{AllocError, Global};
use ut_logic::{Text, Trit};

/// A side of a comparison.
#[derive(Drop)]
pub enum Side {
    Const(Trit),
    Name(Text),
    Literal(Text),
    Quoted(Text),
}

/// The sign of a comparison: `=`, `!=`, `<`, `>`, `<=`, `>=`.
#[derive(Clone, Copy, Debug, PartialEq, Eq)]
pub enum Sign {
    Same,
    Differ,
    Less,
    More,
    LessSame,
    MoreSame,
}

/// An expression of a Kconfig text.
///
/// An `And` or `Or` list has two members or more, none of them a list of the same sign. The text of an outer
/// condition is the word, or the comparison with one space between, as it stands in the Kconfig text.
///
/// Rule: Linux kconfig-language, "Menu dependencies".
#[derive(Drop)]
pub enum Expr {
    Const(Trit),
    Name(Text),
    Outer(Text),
    Compare { left: Side, sign: Sign, right: Side },
    Neg(Boxed<Expr>),
    And(Items<Expr>),
    Or(Items<Expr>),
}

impl Side {
    /// An equal side. The only error is want of memory.
    pub fn copy(&self, alloc: Global) -> Result<Side, AllocError>
        ensures { IfOk result (λ s. s ≡ self.now) }
    {
        match self {
            Side::Const(value) => Ok(Side::Const(*value)),
            Side::Name(name) => Ok(Side::Name(name.copy(alloc)?)),
            Side::Literal(text) => Ok(Side::Literal(text.copy(alloc)?)),
            Side::Quoted(text) => Ok(Side::Quoted(text.copy(alloc)?)),
        }
    }
}

impl Expr {
    /// An equal expression. The only error is want of memory.
    #[cycle(copy)]
    pub fn copy(&self, alloc: Global) -> Result<Expr, AllocError>
        ensures { IfOk result (λ e. e ≡ self.now) }
    {
        match self {
            Expr::Const(value) => Ok(Expr::Const(*value)),
            Expr::Name(name) => Ok(Expr::Name(name.copy(alloc)?)),
            Expr::Outer(text) => Ok(Expr::Outer(text.copy(alloc)?)),
            Expr::Compare { left, sign, right } => {
                let left = left.copy(alloc)?;
                let right = right.copy(alloc)?;
                Ok(Expr::Compare {
                    left,
                    sign: *sign,
                    right,
                })
            }
            Expr::Neg(inner) => {
                let inner = inner.get().copy(alloc)?;
                Ok(Expr::Neg(Boxed::new(alloc, inner)?))
            }
            Expr::And(list) => {
                let copies = copy_each(alloc, list.as_slice())?;
                Ok(Expr::And(Items::from_vec(copies)))
            }
            Expr::Or(list) => {
                let copies = copy_each(alloc, list.as_slice())?;
                Ok(Expr::Or(Items::from_vec(copies)))
            }
        }
    }
}

/// A copy of each.
#[cycle(copy)]
fn copy_each(alloc: Global, list: &[Expr]) -> Result<Vec<Expr>, AllocError>
    ensures { IfOk result (λ v. v.items ≡ list.now) }
{
    let mut copies = Vec::with_capacity(alloc, list.len())?;
    for part in list {
        copies.push(part.copy(alloc)?)?;
    }
    Ok(copies)
}
