//! How a run ends.

ghost use Rattle.std.specs.Prelude.{◌≡◌};
ghost use Rattle.circuit_tool.specs.Ends.{code_of, end_of};
ghost use Rattle.circuit_tool.specs.Endings.{ending};

use system_files::FileFault;

/// An input file of the tool.
#[derive(Clone, Copy, Debug, PartialEq, Eq)]
pub enum CirFile {
    /// `.mat`, the matrix.
    Mat,
    /// `.gra`, the set of vectors.
    Gra,
}

impl CirFile {
    // What stands behind the project in the file's name.
    pub(crate) fn ending(self) -> &'static str
        ensures { result.now ≡ ending self }
    {
        match self {
            CirFile::Mat => ".mat",
            CirFile::Gra => ".gra",
        }
    }
}

/// How a run ends.
#[derive(Clone, Copy, Debug, PartialEq, Eq)]
pub enum CirEnd {
    /// All is written: how many rows there are.
    Done { circuits: u64 },
    /// The words are not those of the command.
    Usage,
    /// This file has this fault.
    File(CirFile, FileFault),
    /// The set has another number of columns than the matrix.
    Shape,
    /// This row of the set, counted from 1, is not in the kernel of the matrix, or its norm is out of range.
    NotKernel { row: u32 },
    /// A call of the folder or of standard output failed.
    Outside,
    /// Memory ran out.
    Memory,
}

/// The exit status of the program, and the end behind it.
#[derive(Clone, Copy, Debug, PartialEq, Eq)]
pub struct CirStatus {
    /// 0 where all is done, 1 for wrong words, 2 for a fault of the input, 5 for a device's fault, 6 where memory ran out.
    pub code: u8,
    pub end: CirEnd,
}

// Why a run stopped: an end with all that its message says.
#[derive(Clone, Copy)]
pub(crate) enum Stop {
    Usage,
    File(CirFile, FileFault),
    Shape { rows: u32, cols: u32 },
    NotKernel { row: u32 },
    Outside,
    Memory,
}

// The exit status of an end.
pub(crate) fn code(end: CirEnd) -> u8
    ensures { result ≡ code_of end }
{
    match end {
        CirEnd::Done { .. } => 0,
        CirEnd::Usage => 1,
        CirEnd::File(..) | CirEnd::Shape | CirEnd::NotKernel { .. } => 2,
        CirEnd::Outside => 5,
        CirEnd::Memory => 6,
    }
}

// The end of a run.
pub(crate) fn end(outcome: Result<u64, Stop>) -> CirEnd
    ensures { result ≡ end_of outcome }
{
    match outcome {
        Ok(circuits) => CirEnd::Done { circuits },
        Err(Stop::Usage) => CirEnd::Usage,
        Err(Stop::File(file, fault)) => CirEnd::File(file, fault),
        Err(Stop::Shape { .. }) => CirEnd::Shape,
        Err(Stop::NotKernel { row }) => CirEnd::NotKernel { row },
        Err(Stop::Outside) => CirEnd::Outside,
        Err(Stop::Memory) => CirEnd::Memory,
    }
}
