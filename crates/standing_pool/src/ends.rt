//! How a run with a standing team ends where it does not finish.

ghost use Rattle.std.specs.Prelude.{◌≡◌, Err};
ghost use Rattle.lift_run.specs.declared.ends.RunEnd.TheVariants.{Failed};
ghost use Rattle.standing_pool.specs.Ends.{as_run, run_end_of};

use lift_run::{Place, RunEnd};
use stage_store::Finish;
use std::alloc::AllocError;

/// Why a run did not finish.
#[derive(Debug, Drop)]
pub enum StandEnd {
    /// A number leaves the range.
    Overflow { stage: u32, place: Place },
    /// So many pairs would be used once this norm is closed, more than the limit.
    Pairs { stage: u32, norm: u64, needed: u64 },
    /// So many rows would be listed once this norm is closed, more than the limit.
    Rows { stage: u32, norm: u64, count: u64 },
    /// Memory was refused.
    Memory,
}

impl From<AllocError> for StandEnd {
    ghost use Rattle.standing_pool.specs.declared.ends.StandEnd.TheVariants.{Memory};

    ghost from_gives = { λ _ e. e ≡ Memory };

    fn from(_: AllocError) -> StandEnd {
        StandEnd::Memory
    }
}

// The end of a run that keeps nothing, so that no Keep fails.
fn end_standing(end: RunEnd) -> StandEnd
    requires { end ≡ Failed → ⊥ }
    ensures { run_end_of result ≡ end }
{
    match end {
        RunEnd::Overflow { stage, place } => StandEnd::Overflow { stage, place },
        RunEnd::Pairs {
            stage,
            norm,
            needed,
        } => StandEnd::Pairs {
            stage,
            norm,
            needed,
        },
        RunEnd::Rows { stage, norm, count } => StandEnd::Rows { stage, norm, count },
        RunEnd::Failed => unreachable!(),
        RunEnd::Memory => StandEnd::Memory,
    }
}

/// The answer of a run that keeps nothing.
pub(crate) fn answer_standing(answer: Result<Finish, RunEnd>) -> Result<Finish, StandEnd>
    requires { answer ≡ Err Failed → ⊥ }
    ensures { as_run result ≡ answer }
{
    match answer {
        Ok(finish) => Ok(finish),
        Err(end) => Err(end_standing(end)),
    }
}
