ghost use Rattle.std.specs.Prelude.{◌≡◌, ◌↔◌, [], List, IsTrue, IfOk, is_ok};
ghost use Rattle.cpp_directives.specs.Chains as chain;
ghost use Rattle.cpp_directives.specs.Chains.{Earlier};
ghost use Rattle.cpp_directives.specs.Refusals.{IsRefusal};
ghost use Rattle.cpp_directives.specs.Stack.{IsStackOf, Allows};
ghost use Rattle.cpp_directives.specs.WellFormed as spec;

use crate::bad::CppBad;
use crate::directive::Directive;
use crate::open_chains::OpenChains;
use crate::part::part_of;
use std::alloc::{AllocError, Global};

/// Want of memory stays an error; each other refusal is one of the directives.
fn refused(bad: CppBad) -> Result<(), AllocError>
    ensures { IfOk result (λ u. IsRefusal bad) }
{
    match bad {
        CppBad::Unbalanced { .. } | CppBad::ElseTwice { .. } => Ok(()),
        CppBad::Depth { .. } | CppBad::TooMany { .. } => Ok(()),
        CppBad::NoName { .. } | CppBad::Condition { .. } => Ok(()),
        CppBad::Unclosed { .. } => Ok(()),
        CppBad::Oom => Err(AllocError),
    }
}

/// Passes a directive, and tells whether it may stand where it does.
fn passes(chains: &mut OpenChains, directive: &Directive) -> Result<bool, AllocError>
    ensures { IfOk result (λ b. (before : List Earlier) → IsStackOf chains.old before → Allows b chains.new (chain.passing (chain.part_of directive.now.what) directive.now.line before)) }
{
    match chains.pass(part_of(&directive.what), directive.line) {
        Ok(()) => Ok(true),
        Err(bad) => {
            refused(bad)?;
            Ok(false)
        }
    }
}

/// Whether no chain is left open.
fn is_closed(chains: &OpenChains) -> Result<bool, AllocError>
    ensures { IfOk result (λ b. (before : List Earlier) → IsStackOf chains.now before → b ≡ is_ok (chain.at_end before)) }
{
    match chains.end() {
        Ok(()) => Ok(true),
        Err(bad) => {
            refused(bad)?;
            Ok(false)
        }
    }
}

/// Whether each directive may stand where it does, and no chain is left open.
fn do_chains_match(alloc: Global, list: &[Directive]) -> Result<bool, AllocError>
    ensures { IfOk result (λ b. b ≡ is_ok (spec.all_passing [] list.now)) }
{
    let mut chains = OpenChains::new(alloc);
    for directive in list {
        if !passes(&mut chains, directive)? {
            return Ok(false);
        }
    }
    is_closed(&chains)
}

/// Whether each directive stands on a later line than the one before it.
fn do_lines_rise(list: &[Directive]) -> bool
    ensures { result ≡ spec.lines_rise 0 list.now }
{
    let mut line = 0;
    for directive in list {
        if directive.line <= line {
            return false;
        }
        line = directive.line;
    }
    true
}

/// Whether the directives are as those of each source that is read: each may stand where it does, no chain is
/// left open, and lines rise. The only error is want of memory.
///
/// Rule: ISO C, "Conditional inclusion"; the limits of 250 open chains, 1,024 groups of a chain and 65,535 blocks
/// are this project's.
pub fn is_well_formed(alloc: Global, list: &[Directive]) -> Result<bool, AllocError>
    ensures { IfOk result (λ b. IsTrue b ↔ spec.IsWellFormed list.now) }
{
    let matching = do_chains_match(alloc, list)?;
    Ok(matching && do_lines_rise(list))
}
