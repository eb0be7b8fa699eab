//! What is wrong with a file, and with a project's files.

ghost use Rattle.std.specs.Prelude.{◌≡◌};
ghost use Rattle.system_files.specs.Ends.{text_end, file_end, shape_end, input_end};
ghost use Rattle.system_files.specs.declared.faults.FileEnd.TheVariants as file;
ghost use Rattle.system_files.specs.declared.faults.InputStop.TheVariants as stop;

use crate::Source;
use mat_files::{TextEnd, TextFault};
use outside::{PutEnd, ReadEnd};
use std::alloc::AllocError;
use system_shape::{ShapeEnd, ShapeFault};

/// What is wrong with a file.
#[derive(Clone, Copy, Debug, PartialEq, Eq)]
pub enum FileFault {
    /// There is no such file.
    Missing,
    /// The file has `len` bytes, which is above the limit.
    TooLong { len: u64 },
    /// The text has this fault.
    Text(TextFault),
}

/// Why a file was not read.
#[derive(Clone, Copy, Debug, PartialEq, Eq)]
pub enum FileEnd {
    /// The file has this fault.
    Bad(FileFault),
    /// The folder failed, and its count of faults rose.
    Failed,
    /// Memory ran out.
    Memory,
}

/// What is wrong with a project's files.
#[derive(Clone, Copy, Debug, PartialEq, Eq)]
pub enum InputFault {
    /// This file has this fault.
    File(Source, FileFault),
    /// This file is there, and is not supported.
    Refused(Source),
    /// The files do not make a system.
    Shape(ShapeFault),
}

/// Why a system was not read.
#[derive(Clone, Copy, Debug, PartialEq, Eq)]
pub enum InputEnd {
    /// The files have this fault.
    Bad(InputFault),
    /// The folder failed, and its count of faults rose.
    Failed,
    /// Memory ran out.
    Memory,
}

/// Why a system was not read, with the file at which the folder failed.
#[derive(Clone, Copy, Debug, PartialEq, Eq)]
pub enum InputStop {
    /// The files have this fault.
    Bad(InputFault),
    /// The folder failed at this file, and its count of faults rose.
    Failed(Source),
    /// Memory ran out.
    Memory,
}

impl From<AllocError> for FileEnd {
    ghost from_gives = { λ _ e. e ≡ file.Memory };

    fn from(_: AllocError) -> FileEnd {
        FileEnd::Memory
    }
}

impl From<TextEnd> for FileEnd {
    ghost from_gives = { λ text e. e ≡ text_end text };

    fn from(end: TextEnd) -> FileEnd {
        match end {
            TextEnd::Bad(fault) => FileEnd::Bad(FileFault::Text(fault)),
            TextEnd::Memory => FileEnd::Memory,
        }
    }
}

impl From<ReadEnd> for FileEnd {
    ghost from_gives = { λ read e. e ≡ file_end read };

    fn from(end: ReadEnd) -> FileEnd {
        match end {
            ReadEnd::TooLong { len } => FileEnd::Bad(FileFault::TooLong { len }),
            ReadEnd::Failed => FileEnd::Failed,
            ReadEnd::Memory => FileEnd::Memory,
        }
    }
}

impl From<AllocError> for InputStop {
    ghost from_gives = { λ _ e. e ≡ stop.Memory };

    fn from(_: AllocError) -> InputStop {
        InputStop::Memory
    }
}

impl From<ShapeEnd> for InputStop {
    ghost from_gives = { λ shape e. e ≡ shape_end shape };

    fn from(end: ShapeEnd) -> InputStop {
        match end {
            ShapeEnd::Bad(fault) => InputStop::Bad(InputFault::Shape(fault)),
            ShapeEnd::Memory => InputStop::Memory,
        }
    }
}

impl From<InputStop> for InputEnd {
    ghost from_gives = { λ stop e. e ≡ input_end stop };

    fn from(end: InputStop) -> InputEnd {
        match end {
            InputStop::Bad(fault) => InputEnd::Bad(fault),
            InputStop::Failed(_) => InputEnd::Failed,
            InputStop::Memory => InputEnd::Memory,
        }
    }
}
