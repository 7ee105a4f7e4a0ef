//! Laws of definitions. Each function does nothing, and its contract is the law.

ghost use Rattle.undertaker_run.specs.Laws.{HasOneRefusal};

/// What a run comes to over given files, where no read fails and memory is at hand, is one refusal or a text.
pub fn a_run_has_one_refusal()
    ensures { HasOneRefusal }
{}
