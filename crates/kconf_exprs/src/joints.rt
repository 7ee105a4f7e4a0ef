ghost use Rattle.std.specs.Prelude.{◌≡◌, ◌++◌, IfOk, OnOk};
ghost use Rattle.kconf_exprs.specs.Grammar as spec;
ghost use Rattle.kconf_exprs.specs.Reading as inner;

use crate::roles::{Role, role_of};
use kconf_entries::Expr;
use kconf_words::LineWord;
use sqlite_items::Items;
use std::alloc::{AllocError, Global};

/// The sign that joins a list.
#[derive(Clone, Copy)]
pub enum Joint {
    /// `||`.
    Any,
    /// `&&`.
    All,
}

/// Whether a word is the sign of the list.
fn joins(joint: Joint, role: Role) -> bool
    ensures { result ≡ inner.joins joint role }
{
    match joint {
        Joint::Any => match role {
            Role::Or => true,
            _ => false,
        },
        Joint::All => match role {
            Role::And => true,
            _ => false,
        },
    }
}

/// Whether the sign of the list stands at the front.
pub fn begins_joint(joint: Joint, words: &[LineWord]) -> bool
    ensures { result ≡ spec.begins_with (inner.joins joint) words.now }
{
    match words {
        [word, ..] => joins(joint, role_of(word)),
        [] => false,
    }
}

/// Appends the members that an expression has in a list of `||`.
fn push_any(list: &mut Items<Expr>, expr: Expr) -> Result<(), AllocError>
    ensures { OnOk result (list.new ≡ list.old ++ spec.any_members expr) }
{
    match expr {
        Expr::Or(more) => list.append(more),
        one => list.push(one),
    }
}

/// Appends the members that an expression has in a list of `&&`.
fn push_all(list: &mut Items<Expr>, expr: Expr) -> Result<(), AllocError>
    ensures { OnOk result (list.new ≡ list.old ++ spec.all_members expr) }
{
    match expr {
        Expr::And(more) => list.append(more),
        one => list.push(one),
    }
}

/// The members that an expression has in a list of `||`.
fn any_members(alloc: Global, expr: Expr) -> Result<Items<Expr>, AllocError>
    ensures { IfOk result (λ es. es ≡ spec.any_members expr) }
{
    match expr {
        Expr::Or(list) => Ok(list),
        one => {
            let mut list = Items::new(alloc);
            list.push(one)?;
            Ok(list)
        }
    }
}

/// The members that an expression has in a list of `&&`.
fn all_members(alloc: Global, expr: Expr) -> Result<Items<Expr>, AllocError>
    ensures { IfOk result (λ es. es ≡ spec.all_members expr) }
{
    match expr {
        Expr::And(list) => Ok(list),
        one => {
            let mut list = Items::new(alloc);
            list.push(one)?;
            Ok(list)
        }
    }
}

/// One list of the members of both.
pub fn join(alloc: Global, joint: Joint, left: Expr, right: Expr) -> Result<Expr, AllocError>
    ensures { IfOk result (λ e. e ≡ inner.join joint left right) }
{
    match joint {
        Joint::Any => {
            let mut list = any_members(alloc, left)?;
            push_any(&mut list, right)?;
            Ok(Expr::Or(list))
        }
        Joint::All => {
            let mut list = all_members(alloc, left)?;
            push_all(&mut list, right)?;
            Ok(Expr::And(list))
        }
    }
}
