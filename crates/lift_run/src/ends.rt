//! The limits of a run, and how it ends where it does not finish.

ghost use Rattle.std.specs.Prelude.{◌≡◌};

use lift_core::IntRow;
use outside::PutEnd;
use stage_store::LiftEnd;
use std::alloc::AllocError;

/// How many workers a run has, and the most pairs and listed rows that it may have. What a run gives is the same for every
/// number of workers.
#[derive(Clone, Copy, Debug, PartialEq, Eq)]
pub struct Limits {
    /// How many workers work out a norm: 1 to 32.
    pub workers: u32,
    /// The most pairs that may be used, those of all stages together: at most 2^62.
    pub pairs: u64,
    /// The most rows that a stage may list: 1 to 2^21.
    pub rows: u32,
}

impl Limits {
    /// The greatest number of workers.
    pub const MAX_WORKERS: u32 = 32;
    /// The number of workers where none is asked for.
    pub const DEFAULT_WORKERS: u32 = 4;
    /// The greatest budget of pairs.
    pub const MAX_PAIRS: u64 = 4_611_686_018_427_387_904;
    /// The greatest budget of rows.
    pub const MAX_ROWS: u32 = 2_097_152;
    /// The budget of pairs where none is asked for.
    pub const DEFAULT_PAIRS: u64 = 1_099_511_627_776;
    /// The budget of rows where none is asked for.
    pub const DEFAULT_ROWS: u32 = 1_048_576;
}

impl Default for Limits {
    ghost use Rattle.lift_run.specs.declared.ends.TheConstants.Limits.{DEFAULT_PAIRS, DEFAULT_ROWS, DEFAULT_WORKERS};

    ghost is_default = { λ l. (l.pairs ≡ DEFAULT_PAIRS) × (l.rows ≡ DEFAULT_ROWS)
        × (l.workers ≡ DEFAULT_WORKERS) };

    fn default() -> Limits {
        Limits {
            workers: Limits::DEFAULT_WORKERS,
            pairs: Limits::DEFAULT_PAIRS,
            rows: Limits::DEFAULT_ROWS,
        }
    }
}

/// Where a number leaves the range.
#[derive(Debug, Drop)]
pub enum Place {
    /// The product of the stage's row with this solution of the rows before is below -(2^63-1) or above 2^63-1.
    Row(IntRow),
    /// The next norm of the stage is above 2^63-1.
    Norm(u64),
}

/// Why a run did not finish.
#[derive(Debug, Drop)]
pub enum RunEnd {
    /// A number leaves the range.
    Overflow { stage: u32, place: Place },
    /// So many pairs would be used once this norm is closed, more than the limit.
    Pairs { stage: u32, norm: u64, needed: u64 },
    /// So many rows would be listed once this norm is closed, more than the limit.
    Rows { stage: u32, norm: u64, count: u64 },
    /// The Keep failed, and its count of faults rose.
    Failed,
    /// Memory was refused.
    Memory,
}

impl From<AllocError> for RunEnd {
    ghost use Rattle.lift_run.specs.declared.ends.RunEnd.TheVariants.{Memory};

    ghost from_gives = { λ _ e. e ≡ Memory };

    fn from(_: AllocError) -> RunEnd {
        RunEnd::Memory
    }
}

impl From<LiftEnd> for RunEnd {
    ghost use Rattle.lift_run.specs.Lifts.{run_end};

    ghost from_gives = { λ e r. r ≡ run_end e };

    fn from(end: LiftEnd) -> RunEnd {
        match end {
            LiftEnd::Overflow { stage, row } => RunEnd::Overflow {
                stage,
                place: Place::Row(row),
            },
            LiftEnd::Memory => RunEnd::Memory,
        }
    }
}

impl From<PutEnd> for RunEnd {
    ghost use Rattle.lift_run.specs.Lifts.{run_end_kept};

    ghost from_gives = { λ e r. r ≡ run_end_kept e };

    fn from(end: PutEnd) -> RunEnd {
        match end {
            PutEnd::Failed => RunEnd::Failed,
            PutEnd::Memory => RunEnd::Memory,
        }
    }
}
