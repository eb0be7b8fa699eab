//! How a run ends.
ghost use Rattle.std.specs.Prelude.{◌≡◌};
ghost use Rattle.decompose_tool.specs.Ends.{code_of, end_of};
ghost use Rattle.decompose_tool.specs.Endings.{ending};
ghost use Rattle.decompose_tool.specs.declared.ends.Stop.TheVariants as stop;

use lift_core::IntRow;
use std::alloc::AllocError;
use system_files::{FileFault, InputFault};

/// A file of the tool, beside those of the system.
#[derive(Clone, Copy, Debug, PartialEq, Eq)]
pub enum DecFile {
    /// `.gra`, the set of `graver`.
    Gra,
    /// `.hil`, the set of `hilbert`.
    Hil,
    /// `.zinhom`, the inhomogeneous solutions of `zsolve`.
    Zinhom,
    /// `.zhom`, the homogeneous solutions of `zsolve`.
    Zhom,
    /// `.sol`, the point.
    Sol,
}

impl DecFile {
    // What stands behind the project in the file's name.
    pub(crate) fn ending(self) -> &'static str
        ensures { result.now ≡ ending self }
    {
        match self {
            DecFile::Gra => ".gra",
            DecFile::Hil => ".hil",
            DecFile::Zinhom => ".zinhom",
            DecFile::Zhom => ".zhom",
            DecFile::Sol => ".sol",
        }
    }
}

/// How a run ends.
#[derive(Debug, Drop)]
pub enum DecEnd {
    /// All is written: how many terms there are.
    Done { terms: u64 },
    /// This is left, and no candidate fits below it.
    Left { rest: IntRow },
    /// The words are not those of the command.
    Usage,
    /// The system's files have this fault.
    Input(InputFault),
    /// This file has this fault.
    File(DecFile, FileFault),
    /// This file has another number of columns than the matrix, or the point is not one row.
    Shape(DecFile),
    /// This row of the file, counted from 1, is not a solution.
    NotSolution(DecFile, u32),
    /// The norm of this row of the file, counted from 1, or of its full vector is above 2^63-1.
    Range(DecFile, u32),
    /// A call of the folder or of standard output failed.
    Outside,
    /// Memory ran out.
    Memory,
}

/// The exit status of the program, and the end behind it.
#[derive(Debug, Drop)]
pub struct DecStatus {
    /// 0 where all is done, 1 for wrong words, 2 for a fault of the input or a rest, 5 for a device's fault, 6 where
    /// memory ran out.
    pub code: u8,
    pub end: DecEnd,
}

// What is wrong with a row.
#[derive(Clone, Copy)]
pub(crate) enum RowFault {
    Range,
    NotSolution,
}

// Why a run stopped: an end with all that its message says.
#[derive(Clone, Copy)]
pub(crate) enum Stop {
    Usage,
    Input(InputFault),
    File(DecFile, FileFault),
    Shape(DecFile, u32, u32),
    Row(DecFile, u32, RowFault),
    Outside,
    Memory,
}

// What a walk comes to.
#[derive(Drop)]
pub(crate) enum Ending {
    Done { terms: u64 },
    Left { rest: IntRow },
}

impl From<AllocError> for Stop {
    ghost from_gives = { λ _ e. e ≡ stop.Memory };

    fn from(_: AllocError) -> Stop {
        Stop::Memory
    }
}

// The exit status of an end.
pub(crate) fn code(end: &DecEnd) -> u8
    ensures { result ≡ code_of end.now }
{
    match end {
        DecEnd::Done { .. } => 0,
        DecEnd::Usage => 1,
        DecEnd::Left { .. }
        | DecEnd::Input(_)
        | DecEnd::File(..)
        | DecEnd::Shape(_)
        | DecEnd::NotSolution(..)
        | DecEnd::Range(..) => 2,
        DecEnd::Outside => 5,
        DecEnd::Memory => 6,
    }
}

// The end of a run.
pub(crate) fn end(outcome: Result<Ending, Stop>) -> DecEnd
    ensures { result ≡ end_of outcome }
{
    match outcome {
        Ok(Ending::Done { terms }) => DecEnd::Done { terms },
        Ok(Ending::Left { rest }) => DecEnd::Left { rest },
        Err(Stop::Usage) => DecEnd::Usage,
        Err(Stop::Input(fault)) => DecEnd::Input(fault),
        Err(Stop::File(file, fault)) => DecEnd::File(file, fault),
        Err(Stop::Shape(file, _, _)) => DecEnd::Shape(file),
        Err(Stop::Row(file, row, RowFault::NotSolution)) => DecEnd::NotSolution(file, row),
        Err(Stop::Row(file, row, RowFault::Range)) => DecEnd::Range(file, row),
        Err(Stop::Outside) => DecEnd::Outside,
        Err(Stop::Memory) => DecEnd::Memory,
    }
}
