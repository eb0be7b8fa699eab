//! The faults of restart files, and why one was not read.

ghost use Rattle.std.specs.Prelude.{◌≡◌};
ghost use Rattle.restart_file.specs.declared.ends.RestartEnd.TheVariants.{Memory};
ghost use Rattle.restart_file.specs.Ends.{end_of_put};

use outside::PutEnd;
use std::alloc::AllocError;

/// The first fault of a restart file. Lines are numbered from 1.
#[derive(Clone, Copy, Debug, PartialEq, Eq)]
pub enum RestartFault {
    /// There is no such file.
    Missing,

    /// The last line is not that of the digest of all bytes before it.
    Digest,

    /// The line is not of its form, or a number in it is too great.
    Text { line: u64 },

    /// The line is not the one that the system has there.
    OtherSystem { line: u64 },

    /// The row in the line is no nonzero vector of the stage, or its norm is above 2^63-1.
    NotSolution { line: u64 },

    /// The row in the line does not come behind the row before it, or its norm is not that of its list.
    Order { line: u64 },

    /// The numbers in the line are not those of the listed rows by the sign of their last entry.
    Classes { line: u64 },

    /// The used pairs are fewer than the pairs of the closed norms.
    Used,
}

/// Why a restart file was not read.
#[derive(Clone, Copy, Debug, PartialEq, Eq)]
pub enum RestartEnd {
    /// The file has this fault.
    Bad(RestartFault),

    /// The folder failed, and its count of faults rose.
    Failed,

    /// There was not enough memory.
    Memory,
}

impl From<AllocError> for RestartEnd {
    ghost from_gives = { λ _ end. end ≡ Memory };

    fn from(_refused: AllocError) -> RestartEnd {
        RestartEnd::Memory
    }
}

impl From<PutEnd> for RestartEnd {
    ghost from_gives = { λ put end. end ≡ end_of_put put };

    fn from(refused: PutEnd) -> RestartEnd {
        match refused {
            PutEnd::Failed => RestartEnd::Failed,
            PutEnd::Memory => RestartEnd::Memory,
        }
    }
}
