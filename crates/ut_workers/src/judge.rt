ghost use Rattle.std.specs.Prelude.{IfOk};

use std::alloc::{AllocError, Global};

/// Judges one job at a time. All workers share one judge, and it doesn't change.
pub trait Judge {
    /// What is asked.
    type Job;

    /// What is answered.
    type Out;

    /// The jobs that the judge takes.
    ghost accepts: { Self → Self.Job → Type 0 };

    /// What an answer says of its job.
    ghost meets: { Self → Self.Job → Self.Out → Type 0 };

    /// The answer to a job; an error only where memory runs out.
    fn judge(&self, alloc: Global, job: &Self::Job) -> Result<Self::Out, AllocError>
        requires { accepts self.now job.now }
        ensures { IfOk result (λ out. meets self.now job.now out) };
}
