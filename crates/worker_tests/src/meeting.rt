//! A gate that sees whether two workers of one norm run at once.

use std::sync::atomic::AtomicU64;
use std::sync::atomic::Ordering::SeqCst;
use worker_gate::{Gate, Point};

// How often a worker that is held looks for another one: about a second, so that a busy machine starts the other thread.
const TURNS: u32 = 1 << 28;

/// Holds the first worker that has drawn a block until another one has drawn, or found that no block is left. Workers that run
/// one after another never meet, in whichever order.
#[derive(Drop)]
pub struct Meeting {
    held: AtomicU64,
    came: AtomicU64,
    met: AtomicU64,
}

impl Meeting {
    /// Nobody is held yet.
    pub fn new() -> Meeting {
        Meeting {
            held: AtomicU64::new(0),
            came: AtomicU64::new(0),
            met: AtomicU64::new(0),
        }
    }

    /// Whether another worker drew while one was held.
    pub fn has_met(&self) -> bool {
        self.met.load(SeqCst) != 0
    }

    // Waits for another worker.
    fn hold(&self) {
        for _ in 0..TURNS {
            if self.came.load(SeqCst) != 0 {
                self.met.store(1, SeqCst);
                break;
            }
        }
        self.held.store(u64::MAX, SeqCst);
    }
}

impl Gate for Meeting {
    fn at(&self, worker: u32, point: Point) {
        let Point::Drawn { block } = point else {
            return;
        };
        let me = worker as u64 + 1;
        if block.is_some() && self.held.compare_exchange(0, me, SeqCst, SeqCst).is_ok() {
            self.hold();
            return;
        }
        let held = self.held.load(SeqCst);
        if held != 0 && held != u64::MAX && held != me {
            self.came.store(1, SeqCst);
        }
    }
}
