//! Laws of definitions. Each function does nothing, and its contract is the law.

ghost use Rattle.ut_base.specs.PlanLaws.{HasOneOutcome};

use crate::ReadError;

/// Over given files every way through a plan comes to its outcome, unless a read fails or memory is wanting.
pub fn a_plan_has_one_outcome<A, E: ReadError>()
    ensures { HasOneOutcome A E.errors }
{}
