ghost use Rattle.std.specs.Prelude.{◌≡◌, ◌<◌, Some, length, slice_get, option_map, IfOk, OnOk};
ghost use Rattle.undertaker.specs.Meanings.{meaning_under};
ghost use Rattle.undertaker.specs.Names.{with_name};
ghost use Rattle.undertaker.specs.Plain.{IsPlain, ArePlain, asked_in, asked_of, macros_behind};
ghost use Rattle.undertaker.specs.Steps.{StandsFor};
ghost use Rattle.undertaker.specs.StepsOf.{IsMeant, AreStepsOf};

use crate::dependencies::Dependencies;
use crate::macros::meaning_of;
use crate::names::Names;
use crate::wishes::Wish;
use cpp_directives::{Cond, Directive, What};
use std::alloc::{AllocError, Global};
use ut_logic::Text;

/// A directive of a source without macro lines.
#[derive(Clone, Copy, Debug, PartialEq, Eq)]
pub enum Step {
    /// `#ifdef` or `#ifndef`: a block that asks this.
    Opens(Wish),
    /// `#endif`.
    Closes,
}

/// A name that is to be defined, or not.
#[derive(Drop)]
struct Asked<'a> {
    name: &'a Text,
    defined: bool,
}

/// What a condition asks of one macro.
fn asked_of(cond: &Cond) -> Option<Asked<'_>>
    ensures { option_map (λ a. (a.name.now, a.defined)) result ≡ asked_of cond.now }
{
    match cond {
        Cond::Defined(name) => Some(Asked {
            name,
            defined: true,
        }),
        Cond::Neg(inner) => match inner.get() {
            Cond::Defined(name) => Some(Asked {
                name,
                defined: false,
            }),
            _ => None,
        },
        _ => None,
    }
}

/// What is wanted of the macro.
fn wish_of(
    alloc: Global,
    graph: &Dependencies,
    macros: &mut Names,
    asked: &Asked<'_>,
) -> Result<Wish, AllocError>
    ensures name { IfOk result (λ w. slice_get macros.new w.name ≡ Some asked.now.name.now) }
    ensures within { IfOk result (λ w. w.name < length macros.new) }
    ensures meaning { IfOk result (λ w. w.meaning ≡ meaning_under graph.now.names asked.now.name.now) }
    ensures defined { IfOk result (λ w. w.defined ≡ asked.now.defined) }
    ensures macros { OnOk result (macros.new ≡ with_name macros.old asked.now.name.now) }
{
    let meaning = meaning_of(alloc, graph, asked.name.text())?;
    let name = macros.add(asked.name.copy(alloc)?)?;
    Ok(Wish {
        name,
        meaning,
        defined: asked.defined,
    })
}

/// The step of a directive.
fn step_of(
    alloc: Global,
    graph: &Dependencies,
    macros: &mut Names,
    directive: &Directive,
) -> Result<Step, AllocError>
    requires { IsPlain directive.now }
    ensures stands { IfOk result (λ s. StandsFor macros.new s directive.now) }
    ensures meant { IfOk result (λ s. IsMeant graph.now.names macros.new s) }
    ensures macros { OnOk result (macros.new ≡ macros_behind macros.old directive.now.what) }
{
    match asked_in(&directive.what) {
        Some(asked) => Ok(Step::Opens(wish_of(alloc, graph, macros, &asked)?)),
        None => Ok(Step::Closes),
    }
}

/// What a directive asks of one macro.
fn asked_in(what: &What) -> Option<Asked<'_>>
    ensures { option_map (λ a. (a.name.now, a.defined)) result ≡ asked_in what.now }
{
    match what {
        What::If(cond) => asked_of(cond),
        _ => None,
    }
}

/// The steps of the directives, whose macros are numbered by first appearance.
pub fn steps_of(
    alloc: Global,
    graph: &Dependencies,
    directives: &[Directive],
) -> Result<Vec<Step>, AllocError>
    requires { ArePlain directives.now }
    ensures { IfOk result (λ steps. AreStepsOf graph.now.names directives.now steps.items) }
{
    let mut macros = Names::new(alloc);
    let mut steps = Vec::with_capacity(alloc, directives.len())?;
    for directive in directives {
        steps.push(step_of(alloc, graph, &mut macros, directive)?)?;
    }
    Ok(steps)
}
