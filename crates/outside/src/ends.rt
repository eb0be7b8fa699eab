//! The refusals of folders, sinks and readers of whole files.

ghost use Rattle.std.specs.Prelude.{◌≡◌};
ghost use Rattle.outside.specs.declared.ends.PutEnd.TheVariants.{Memory};
ghost use Rattle.outside.specs.Ends.{read_end};

use std::alloc::AllocError;
use thiserror::Error;

/// Why a call of a folder or a sink was refused.
#[derive(Clone, Copy, Debug, PartialEq, Eq, Error)]
pub enum PutEnd {
    /// The device failed, and its count of faults rose.
    #[error("the device failed")]
    Failed,

    /// There was not enough memory.
    #[error("out of memory")]
    Memory,
}

/// Why a whole file was not read.
#[derive(Clone, Copy, Debug, PartialEq, Eq, Error)]
pub enum ReadEnd {
    /// The folder failed, and its count of faults rose.
    #[error("the device failed")]
    Failed,

    /// The file has `len` bytes, which is above the limit. None of them was read.
    #[error("{len} bytes are too many")]
    TooLong { len: u64 },

    /// There was not enough memory.
    #[error("out of memory")]
    Memory,
}

impl From<AllocError> for PutEnd {
    ghost from_gives = { λ _ end. end ≡ Memory };

    fn from(_refused: AllocError) -> PutEnd {
        PutEnd::Memory
    }
}

impl From<PutEnd> for ReadEnd {
    ghost from_gives = { λ put read. read ≡ read_end put };

    fn from(refused: PutEnd) -> ReadEnd {
        match refused {
            PutEnd::Failed => ReadEnd::Failed,
            PutEnd::Memory => ReadEnd::Memory,
        }
    }
}
