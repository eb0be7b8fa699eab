//! How a run ends.
ghost use Rattle.std.specs.Prelude.{◌≡◌};
ghost use Rattle.climb_tool.specs.Ends.{code_of, end_of};
ghost use Rattle.climb_tool.specs.Endings.{ending};
ghost use Rattle.climb_tool.specs.declared.ends.Stop.TheVariants as stop;

use std::alloc::AllocError;
use system_files::FileFault;

/// An input file of the tool.
#[derive(Clone, Copy, Debug, PartialEq, Eq)]
pub enum ClimbFile {
    /// `.mat`, the matrix.
    Mat,
    /// `.gra`, the set of vectors.
    Gra,
    /// `.cost`, the costs of the columns.
    Cost,
    /// `.upper`, the bounds of the columns.
    Upper,
    /// `.start`, the point to begin with.
    Start,
}

impl ClimbFile {
    // What stands behind the project in the file's name.
    pub(crate) fn ending(self) -> &'static str
        ensures { result.now ≡ ending self }
    {
        match self {
            ClimbFile::Mat => ".mat",
            ClimbFile::Gra => ".gra",
            ClimbFile::Cost => ".cost",
            ClimbFile::Upper => ".upper",
            ClimbFile::Start => ".start",
        }
    }
}

/// How a run ends.
#[derive(Clone, Copy, Debug, PartialEq, Eq)]
pub enum ClimbEnd {
    /// All is written: the cost of the last point, and how many steps led there.
    Done { cost: i128, steps: u64 },
    /// So many steps were taken, which is as many as may be, and one more would lower the cost.
    Steps { done: u64 },
    /// The words are not those of the command.
    Usage,
    /// This file has this fault.
    File(ClimbFile, FileFault),
    /// This file has another number of columns than the matrix, or not one row.
    Shape(ClimbFile),
    /// The cost of this column, counted from 1, is above 2^56 in absolute value.
    CostRange { at: u32 },
    /// The bound of this column is negative.
    UpperRange { at: u32 },
    /// The start is below 0 or above the bound in this column.
    Infeasible { at: u32 },
    /// This row of the set, counted from 1, is not in the kernel of the matrix, or its norm is out of range.
    NotKernel { row: u32 },
    /// A call of the folder or of standard output failed.
    Outside,
    /// Memory ran out.
    Memory,
}

/// The exit status of the program, and the end behind it.
#[derive(Clone, Copy, Debug, PartialEq, Eq)]
pub struct ClimbStatus {
    /// 0 where all is done, 1 for wrong words, 2 for a fault of the input, 4 for a spent budget, 5 for a device's fault,
    /// 6 where memory ran out.
    pub code: u8,
    pub end: ClimbEnd,
}

// What is told of a path: the cost of its last point, and how many steps it has.
#[derive(Clone, Copy)]
pub(crate) struct Reached {
    pub(crate) cost: i128,
    pub(crate) steps: u64,
}

// Why a run stopped: an end with all that its message says.
#[derive(Clone, Copy)]
pub(crate) enum Stop {
    Usage,
    File(ClimbFile, FileFault),
    Shape {
        file: ClimbFile,
        rows: u32,
        cols: u32,
    },
    CostRange {
        at: u32,
    },
    UpperRange {
        at: u32,
    },
    Infeasible {
        at: u32,
    },
    NotKernel {
        row: u32,
    },
    Steps {
        done: u64,
    },
    Outside,
    Memory,
}

impl From<AllocError> for Stop {
    ghost from_gives = { λ _ e. e ≡ stop.Memory };

    fn from(_: AllocError) -> Stop {
        Stop::Memory
    }
}

// The exit status of an end.
pub(crate) fn code(end: ClimbEnd) -> u8
    ensures { result ≡ code_of end }
{
    match end {
        ClimbEnd::Done { .. } => 0,
        ClimbEnd::Usage => 1,
        ClimbEnd::File(..)
        | ClimbEnd::Shape(_)
        | ClimbEnd::CostRange { .. }
        | ClimbEnd::UpperRange { .. }
        | ClimbEnd::Infeasible { .. }
        | ClimbEnd::NotKernel { .. } => 2,
        ClimbEnd::Steps { .. } => 4,
        ClimbEnd::Outside => 5,
        ClimbEnd::Memory => 6,
    }
}

// The end of a run.
pub(crate) fn end(outcome: Result<Reached, Stop>) -> ClimbEnd
    ensures { result ≡ end_of outcome }
{
    match outcome {
        Ok(Reached { cost, steps }) => ClimbEnd::Done { cost, steps },
        Err(Stop::Usage) => ClimbEnd::Usage,
        Err(Stop::File(file, fault)) => ClimbEnd::File(file, fault),
        Err(Stop::Shape { file, .. }) => ClimbEnd::Shape(file),
        Err(Stop::CostRange { at }) => ClimbEnd::CostRange { at },
        Err(Stop::UpperRange { at }) => ClimbEnd::UpperRange { at },
        Err(Stop::Infeasible { at }) => ClimbEnd::Infeasible { at },
        Err(Stop::NotKernel { row }) => ClimbEnd::NotKernel { row },
        Err(Stop::Steps { done }) => ClimbEnd::Steps { done },
        Err(Stop::Outside) => ClimbEnd::Outside,
        Err(Stop::Memory) => ClimbEnd::Memory,
    }
}
