use super::*;
use std::sync::atomic::{AtomicBool, AtomicU32, Ordering};
use std::test::Fail;

// The most looks for the other thread's flag.
const TURNS: u32 = 200_000_000;

// Squares numbers, but has no memory for the refused one.
#[derive(Drop)]
struct Squares {
    refused: Option<u32>,
    judged: AtomicU32,
}

impl Judge for Squares {
    type Job = u32;

    type Out = u64;

    ghost accepts = { λ _ _. Unit {0} };

    ghost meets = { λ _ _ _. Unit {0} };

    fn judge(&self, _alloc: Global, job: &u32) -> Result<u64, AllocError> {
        if self.refused == Some(*job) {
            return Err(AllocError);
        }
        self.judged.fetch_add(1, Ordering::SeqCst);
        let number = u64::from(*job);
        Ok(number * number)
    }
}

fn judge_of_squares(refused: Option<u32>) -> Squares {
    Squares {
        refused,
        judged: AtomicU32::new(0),
    }
}

#[test]
fn answers_stand_in_the_order_of_the_jobs(rt: HostRuntime) -> Result<(), Fail> {
    let jobs = [3u32, 1, 4, 1, 5, 9, 2];
    let want = [9u64, 1, 16, 1, 25, 81, 4];
    for workers in 1..65u32 {
        let all = fan(&rt, rt.alloc(), &judge_of_squares(None), &jobs, workers)?;
        assert_eq!(rt; all.as_slice(), want.as_slice(), "{workers} workers");
        let none = fan(&rt, rt.alloc(), &judge_of_squares(None), &[], workers)?;
        assert_eq!(rt; none.len(), 0, "no job, {workers} workers");
    }
    Ok(())
}

#[test]
fn other_workers_end_before_want_of_memory_is_answered(rt: HostRuntime) -> Result<(), Fail> {
    let judge = judge_of_squares(Some(10));
    let jobs = [10u32, 11, 12, 13, 14, 15];
    let answers = fan(&rt, rt.alloc(), &judge, &jobs, 2);
    assert!(rt; answers.is_err());

    // The first worker leaves 12 and 14 after it met 10, and the second has judged 11, 13 and 15.
    assert_eq!(rt; judge.judged.load(Ordering::SeqCst), 3);
    Ok(())
}

// Its two jobs look for each other.
#[derive(Drop)]
struct Meeting {
    first: AtomicBool,
    second: AtomicBool,
}

impl Judge for Meeting {
    type Job = bool;

    type Out = bool;

    ghost accepts = { λ _ _. Unit {0} };

    ghost meets = { λ _ _ _. Unit {0} };

    fn judge(&self, _alloc: Global, job: &bool) -> Result<bool, AllocError> {
        Ok(if *job {
            raise_and_look(&self.first, &self.second)
        } else {
            raise_and_look(&self.second, &self.first)
        })
    }
}

fn raise_and_look(mine: &AtomicBool, theirs: &AtomicBool) -> bool {
    mine.store(true, Ordering::SeqCst);
    for _ in 0..TURNS {
        if theirs.load(Ordering::SeqCst) {
            return true;
        }
    }
    false
}

#[test]
fn two_workers_run_at_the_same_time(rt: HostRuntime) -> Result<(), Fail> {
    let meeting = Meeting {
        first: AtomicBool::new(false),
        second: AtomicBool::new(false),
    };
    let both = fan(&rt, rt.alloc(), &meeting, &[true, false], 2)?;
    assert_eq!(rt; both.as_slice(), [true, true].as_slice());
    Ok(())
}
