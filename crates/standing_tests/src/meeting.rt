//! A gate that sees whether two workers work out their parts of norm 2 at once.

use crate::systems::balance;
use lift_run::Limits;
use standing_pool::run_standing;
use std::alloc::{AllocError, Global};
use std::sync::Wait;
use std::sync::atomic::AtomicU64;
use std::sync::atomic::Ordering::SeqCst;
use std::test::Fail;
use std::thread::Threads;
use worker_gate::{Gate, Point};

// How often a worker that is held looks for the other one.
const TURNS: u32 = 1 << 24;

// Counts the calls of two workers, each of whom tells it once a norm, and holds the first one at its second call until the other
// makes its own.
#[derive(Drop)]
pub(crate) struct Meeting {
    first: AtomicU64,
    second: AtomicU64,
    held: AtomicU64,
    met: AtomicU64,
}

impl Meeting {
    pub(crate) fn new() -> Meeting {
        Meeting {
            first: AtomicU64::new(0),
            second: AtomicU64::new(0),
            held: AtomicU64::new(0),
            met: AtomicU64::new(0),
        }
    }

    // Whether a call was held, and the other one came.
    pub(crate) fn has_met(&self) -> bool {
        self.held.load(SeqCst) == 1 && self.met.load(SeqCst) == 1
    }

    // The count of a worker's calls, and that of the other's.
    fn counts(&self, worker: u32) -> (&AtomicU64, &AtomicU64) {
        if worker == 0 {
            (&self.first, &self.second)
        } else {
            (&self.second, &self.first)
        }
    }

    // Waits until the other worker has made its second call.
    fn hold(&self, other: &AtomicU64) {
        for _ in 0..TURNS {
            if other.load(SeqCst) >= 2 {
                self.met.store(1, SeqCst);
                break;
            }
        }
    }
}

impl Gate for Meeting {
    fn at(&self, worker: u32, point: Point) {
        let _ = point;
        let (own, other) = self.counts(worker);
        let calls = own.fetch_add(1, SeqCst);
        if calls == 1 && self.held.compare_exchange(0, 1, SeqCst, SeqCst).is_ok() {
            self.hold(other);
        }
    }
}

// Whether the workers have met, and the numbers of rows and pairs.
fn run_told<R: Threads + Wait + Sync>(
    rt: &R,
    alloc: Global,
    gate: &Meeting,
) -> Result<String, AllocError> {
    let limits = Limits {
        workers: 2,
        pairs: 1_000,
        rows: 1_000,
    };
    match run_standing(rt, alloc, balance(alloc)?, limits, gate) {
        Ok(finish) => format!(in alloc; "{} rows, {} pairs", finish.rows.len(), finish.pairs),
        Err(_) => String::from_str(alloc, "an end"),
    }
}

#[test]
fn two_workers_of_a_team_meet(rt: HostRuntime) -> Result<(), Fail> {
    let gate = Meeting::new();
    let text = run_told(&rt, rt.alloc(), &gate)?;
    let has_met = gate.has_met();
    assert_eq!(rt; (has_met, text.as_str()), (true, "289 rows, 289 pairs"));
    Ok(())
}
