//! Points at which a worker can be held.

/// What a worker has just done, or is about to do.
#[derive(Clone, Copy, Debug, PartialEq, Eq, Drop)]
pub enum Point {
    /// It has drawn a block of this number, or none.
    Drawn { block: Option<u64> },
    /// It is about to put its share.
    Putting,
    /// It has put its share, or tried to.
    PutDone,
}

/// What is told each point that a worker passes. Workers are numbered from 0.
pub trait Gate {
    fn at(&self, worker: u32, point: Point);
}

/// A gate that does nothing.
#[derive(Drop)]
pub struct FreeGate;

impl Gate for FreeGate {
    fn at(&self, worker: u32, point: Point) {
        let _ = (worker, point);
    }
}
