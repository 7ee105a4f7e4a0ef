//! Jobs in, their answers out, in the order of the jobs: the jobs are shared out among threads.
//!
//! The rule is this project's own. The jobs stand still while they are judged: all workers share one
//! judge and one list of jobs, and nothing that changes. A contract sees the jobs and the answers as
//! lists, and what an answer says of its job as the judge's own relation.
//!
//! The promise to the crates above: as many answers as jobs, and each meets the job at its place. That
//! threads run at the same time is no part of it.
#![tactic(auto)]

mod judge;
mod stripes;

pub use judge::Judge;
pub use stripes::fan;
