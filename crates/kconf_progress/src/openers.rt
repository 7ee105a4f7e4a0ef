ghost use Rattle.std.specs.Prelude.{◌≡◌, ◌++◌, OnOk, IfOk};
ghost use Rattle.kconf_entries.specs.Joined.{members_of_all};
ghost use Rattle.kconf_statements.specs.declared.lines.Opens.{Opens};
ghost use Rattle.kconf_progress.specs.Openers as spec;

use crate::conditions::add_all_members;
use kconf_entries::Expr;
use kconf_statements::Opens;
use sqlite_items::Items;
use std::alloc::{AllocError, Global};

/// An enclosing line: what it opens, and its conditions in order.
#[derive(Drop)]
pub struct OpenLine {
    pub opens: Opens,
    pub line: u32,
    pub depends: Items<Expr>,
    /// Those of its `visible if` lines.
    pub visible: Items<Expr>,
}

/// An enclosing line without conditions.
pub fn opening(alloc: Global, opens: Opens, line: u32) -> OpenLine
    ensures { result ≡ spec.opening opens line }
{
    OpenLine {
        opens,
        line,
        depends: Items::new(alloc),
        visible: Items::new(alloc),
    }
}

/// The members of the conditions of enclosing lines, from the outermost.
pub fn inherited(alloc: Global, openers: &[OpenLine]) -> Result<Vec<Expr>, AllocError>
    ensures { IfOk result (λ v. v.items ≡ members_of_all (spec.inherited openers.now)) }
{
    let mut list = Vec::new(alloc);
    for opener in openers {
        add_all_members(alloc, &mut list, opener.depends.as_slice())?;
    }
    Ok(list)
}

/// Appends the members of the `visible if` conditions of enclosing lines, from the outermost.
pub fn add_visible(
    alloc: Global,
    list: &mut Vec<Expr>,
    openers: &[OpenLine],
) -> Result<(), AllocError>
    ensures { OnOk result (list.new.items ≡ list.old.items ++ members_of_all (spec.inherited_visible openers.now)) }
{
    for opener in openers {
        add_all_members(alloc, list, opener.visible.as_slice())?;
    }
    Ok(())
}

/// Whether an end word ends the line.
pub fn is_ended_by(what: Opens, opens: Opens) -> bool
    ensures { result ≡ spec.is_ended_by what opens }
{
    match what {
        Opens::Menu => opens == Opens::Menu,
        Opens::Choice => opens == Opens::Choice,
        Opens::If => opens == Opens::If,
        Opens::Source => false,
    }
}

/// The line of the outermost entry that is open in the innermost text.
pub fn unclosed(openers: &[OpenLine]) -> Option<u32>
    ensures { result ≡ spec.unclosed openers.now }
{
    let mut line = None;
    for opener in openers {
        line = match opener.opens {
            Opens::Source => None,
            Opens::Menu | Opens::Choice | Opens::If => match line {
                Some(outer) => Some(outer),
                None => Some(opener.line),
            },
        };
    }
    line
}
