ghost use Rattle.std.specs.Prelude.{◌≡◌, ℕ, ◌<◌, ◌≤◌, IfOk, All, length, map, vec_len};
ghost use Rattle.std.specs.declared.result.Result.TheVariants.{Ok};
ghost use Rattle.std.specs.List.{AllZip};
ghost use Rattle.ut_workers.specs.Stripes.{stripe, AreStripes};

use crate::judge::Judge;
use std::alloc::{AllocError, Global};
use std::collections::VecDeque;
use std::thread;
use std::thread::Threads;

/// The answers to all jobs, in the order of the jobs; an error only where memory runs out.
///
/// With `n` workers, the first judges the jobs 0, n, 2n and so on, the second the jobs 1, n + 1 and so
/// on. Each worker is a thread, where one can be made; no more start than there are jobs, and one
/// worker is the calling thread. A worker whose judge finds no memory leaves its other jobs; the error
/// is answered after every worker has ended. Beside the answers each worker keeps one queue.
pub fn fan<R: Threads + Sync, J: Judge + Sync>(
    rt: &R,
    alloc: Global,
    judge: &J,
    jobs: &[J::Job],
    workers: u32,
) -> Result<Vec<J::Out>, AllocError>
where
    J::Job: Sync,
    J::Out: Send + Drop,
    requires some { 0 < workers }
    requires few { workers ≤ 64 }
    requires accepted { All (λ job. J.accepts judge.now job) jobs.now }
    ensures count { IfOk result (λ answers. vec_len answers ≡ length jobs.now) }

    // The answer at each place meets the job at that place.
    ensures in_order { IfOk result (λ answers. AllZip (J.meets judge.now) jobs.now answers.items) }
{
    let step = (workers as usize).min(jobs.len()).max(1);
    let judge_from = |first: usize| judge_stripe(alloc, judge, jobs, first, step);
    let results = thread::map_indices(rt, alloc, step, &judge_from)?;
    let stripes = all_judged(alloc, results)?;
    interleave(alloc, judge, jobs, step, stripes)
}

// The answers to the jobs at `first`, `first + step` and so on.
fn judge_stripe<J: Judge>(
    alloc: Global,
    judge: &J,
    jobs: &[J::Job],
    first: usize,
    step: usize,
) -> Result<VecDeque<J::Out>, AllocError>
where
    J::Out: Drop,
    requires step { 0 < step }
    requires accepted { All (λ job. J.accepts judge.now job) jobs.now }
    ensures { IfOk result (λ q. AllZip (J.meets judge.now) (stripe step first jobs.now) q.items) }
{
    let mut answers = VecDeque::new(alloc);
    let mut before_next = first;
    for job in jobs {
        if before_next == 0 {
            answers.push_back(judge.judge(alloc, job)?)?;
            before_next = step;
        }
        before_next -= 1;
    }
    Ok(answers)
}

// The stripes in order, if every worker judged its own to the end.
fn all_judged<X: Drop>(
    alloc: Global,
    results: Vec<Result<X, AllocError>>,
) -> Result<VecDeque<X>, AllocError>
    ensures { IfOk result (λ stripes. map Ok stripes.items ≡ results.items) }
{
    let mut stripes = VecDeque::new(alloc);
    for judged in results {
        stripes.push_back(judged?)?;
    }
    Ok(stripes)
}

// The first answer of each stripe in turn, then the second of each, and so on.
fn interleave<J: Judge>(
    alloc: Global,
    judge: &J,
    jobs: &[J::Job],
    step: usize,
    mut stripes: VecDeque<VecDeque<J::Out>>,
) -> Result<Vec<J::Out>, AllocError>
where
    J::Out: Drop,
    requires step { 0 < step }
    requires stripes { AreStripes (J.meets judge.now) step 0 step jobs.now stripes.items (λ q. q.items) }
    ensures { IfOk result (λ v. AllZip (J.meets judge.now) jobs.now v.items) }
{
    let mut answers = Vec::with_capacity(alloc, jobs.len())?;
    for _job in jobs {
        let Some(mut stripe) = stripes.pop_front() else {
            break;
        };
        let Some(answer) = stripe.pop_front() else {
            break;
        };
        answers.push(answer)?;
        stripes.push_back(stripe)?;
    }
    Ok(answers)
}

#[cfg(test)]
mod tests;
