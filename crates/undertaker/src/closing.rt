ghost use Rattle.std.specs.Prelude.{◌≡◌, ◌<◌, ℕ, length, get_or, All, OnOk, IfOk};
ghost use Rattle.undertaker.specs.Dependencies.{Graph, IsLeastClosed};
ghost use Rattle.undertaker.specs.Marks.{Marked, AreClear, added, with_one};

use crate::dependencies::Dependencies;
use std::alloc::{AllocError, Global};

/// Adds a symbol and marks it, if it is new.
fn add_one(found: &mut Vec<usize>, marks: &mut [bool], symbol: usize) -> Result<(), AllocError>
    requires within { symbol < length marks.old }
    requires marked { Marked marks.old found.old.items }
    ensures found { OnOk result (found.new.items ≡ with_one found.old.items symbol) }
    ensures marked { OnOk result (Marked marks.new found.new.items) }
    ensures count { length marks.new ≡ length marks.old }
{
    if !marks[symbol] {
        found.push(symbol)?;
        marks[symbol] = true;
    }
    Ok(())
}

/// Adds and marks those that are new.
fn add(found: &mut Vec<usize>, marks: &mut [bool], more: &[usize]) -> Result<(), AllocError>
    requires within { All (λ k. k < length marks.old) more.now }
    requires marked { Marked marks.old found.old.items }
    ensures found { OnOk result (found.new.items ≡ added found.old.items more.now) }
    ensures marked { OnOk result (Marked marks.new found.new.items) }
    ensures count { length marks.new ≡ length marks.old }
{
    for symbol in more {
        add_one(found, marks, *symbol)?;
    }
    Ok(())
}

/// The symbols that are reached from the wanted ones along dependencies, each once, and marked.
///
/// After want of memory the marks are of no use.
pub fn closure(
    alloc: Global,
    graph: &Dependencies,
    marks: &mut [bool],
    wanted: &[usize],
) -> Result<Vec<usize>, AllocError>
    requires count { length marks.old ≡ length graph.now.needs }
    requires clear { AreClear marks.old }
    requires wanted { All (λ k. k < length graph.now.needs) wanted.now }
    ensures least { IfOk result (λ found. IsLeastClosed graph.now wanted.now found.items) }
    ensures marked { IfOk result (λ found. Marked marks.new found.items) }
    ensures within { IfOk result (λ found. All (λ k. k < length graph.now.needs) found.items) }
    ensures count { length marks.new ≡ length marks.old }
{
    let mut found = Vec::new(alloc);
    add(&mut found, marks, wanted)?;
    let mut at = 0;
    while at < found.len() {
        let symbol = symbol_at(&found, at);
        add(&mut found, marks, graph.needs(symbol))?;
        at += 1;
    }
    Ok(found)
}

/// The symbol that was found at this place.
fn symbol_at(found: &[usize], at: usize) -> usize
    requires { at < length found.now }
    ensures { (d : ℕ) → get_or found.now at d ≡ result }
{
    found[at]
}

/// Takes the marks of these symbols away.
pub fn clear(marks: &mut [bool], found: &[usize])
    requires within { All (λ k. k < length marks.old) found.now }
    requires marked { Marked marks.old found.now }
    ensures clear { AreClear marks.new }
    ensures count { length marks.new ≡ length marks.old }
{
    for symbol in found {
        marks[*symbol] = false;
    }
}
