//! How a run ends, and which file an end speaks of.

ghost use Rattle.std.specs.Prelude.{◌≡◌, IsTrue};
ghost use Rattle.tool_top.specs.declared.ends.End.TheVariants.{Memory};
ghost use Rattle.tool_top.specs.Messages.{IsDoneEnd};
ghost use Rattle.tool_top.specs.Summary.{code_of};
ghost use Rattle.tool_top.specs.Plan.{part_of, part_of_slot, answer_of};
ghost use Rattle.tool_top.specs.Inside.Ends.{end_at, end_of};

use backups::{Slot, StartEnd, Stopped};
use lift_run::{Place, RunEnd};
use mat_files::TextFault;
use outside::PutEnd;
use restart_file::RestartFault;
use std::alloc::AllocError;
use system_files::{FileFault, InputFault, InputStop, Source};
use system_shape::ShapeFault;
use tool_words::WordEnd;

/// A file of a project, by its ending, or standard output.
#[derive(Clone, Copy, Debug, PartialEq, Eq)]
pub enum Part {
    /// `.mat`, the matrix.
    Mat,
    /// `.sign`, the signs of the columns.
    Sign,
    /// `.rel`, the relations of the rows.
    Rel,
    /// `.rhs`, the right sides.
    Rhs,
    /// `.cap`, the caps of the columns.
    Cap,
    /// `.lat`, a lattice basis, which is not supported.
    Lat,
    /// `.lb`, lower bounds, which are not supported.
    Lb,
    /// `.ub`, upper bounds, which are not supported.
    Ub,
    /// `.ckp0`, the first restart file.
    Ckp0,
    /// `.ckp1`, the second restart file.
    Ckp1,
    /// `.gra`, the minimal solutions that `graver` writes.
    Gra,
    /// `.hil`, the minimal solutions that `hilbert` writes.
    Hil,
    /// `.zhom`, the minimal homogeneous solutions that are written.
    Zhom,
    /// `.zinhom`, the minimal inhomogeneous solutions that are written.
    Zinhom,
    /// Standard output.
    Out,
}

/// How a run ends.
#[derive(Debug, Drop)]
pub enum End {
    /// All is written: how many rows all files have, how many pairs were used, and the sum of the rows' norms.
    Done {
        solutions: u64,
        pairs: u64,
        norm_total: u128,
    },
    /// The words are not those of the command.
    Usage,
    /// The file is not there.
    Missing(Part),
    /// The file has more than 4,194,304 bytes.
    TooLong(Part),
    /// The file's text has this fault.
    Text(Part, TextFault),
    /// The file is there, and is not supported.
    Refused(Part),
    /// The files do not make a system.
    Shape(ShapeFault),
    /// Neither restart file is accepted; these are the first faults of both.
    BadRestart(RestartFault, RestartFault),
    /// A product of equation `stage`, or a norm of its stage, leaves the range.
    Overflow {
        stage: u32,
        place: Place,
    },
    /// The pairs up to this norm are more than the pair budget.
    Pairs {
        stage: u32,
        norm: u64,
        needed: u64,
    },
    /// The rows up to this norm are more than the row budget.
    Rows {
        stage: u32,
        norm: u64,
        count: u64,
    },
    /// A call of the folder or of standard output failed at this file.
    Outside(Part),
    /// Memory ran out.
    Memory,
}

impl From<AllocError> for End {
    ghost from_gives = { λ _ e. e ≡ Memory };

    fn from(_: AllocError) -> End {
        End::Memory
    }
}

// An input file, as a part of the project.
fn part_of(source: Source) -> Part
    ensures { result ≡ part_of source }
{
    match source {
        Source::Mat => Part::Mat,
        Source::Sign => Part::Sign,
        Source::Rel => Part::Rel,
        Source::Rhs => Part::Rhs,
        Source::Cap => Part::Cap,
        Source::Lat => Part::Lat,
        Source::Lb => Part::Lb,
        Source::Ub => Part::Ub,
    }
}

// A restart file, as a part of the project.
fn part_of_slot(slot: Slot) -> Part
    ensures { result ≡ part_of_slot slot }
{
    match slot {
        Slot::First => Part::Ckp0,
        Slot::Second => Part::Ckp1,
    }
}

/// The answer to a fault of the files.
pub fn answer_of(fault: InputFault) -> End
    ensures { result ≡ answer_of fault }
{
    match fault {
        InputFault::File(source, FileFault::Missing) => End::Missing(part_of(source)),
        InputFault::File(source, FileFault::TooLong { .. }) => End::TooLong(part_of(source)),
        InputFault::File(source, FileFault::Text(fault)) => End::Text(part_of(source), fault),
        InputFault::Refused(source) => End::Refused(part_of(source)),
        InputFault::Shape(fault) => End::Shape(fault),
    }
}

impl From<WordEnd> for End {
    ghost use Rattle.tool_top.specs.Inside.Ends.{end_of_words};

    ghost from_gives = { λ words end. end ≡ end_of_words words };

    fn from(refused: WordEnd) -> End {
        match refused {
            WordEnd::Usage => End::Usage,
            WordEnd::Memory => End::Memory,
        }
    }
}

impl From<InputStop> for End {
    ghost use Rattle.tool_top.specs.Inside.Ends.{end_of_stop};

    ghost from_gives = { λ stop end. end ≡ end_of_stop stop };

    fn from(stopped: InputStop) -> End {
        match stopped {
            InputStop::Bad(fault) => answer_of(fault),
            InputStop::Failed(source) => End::Outside(part_of(source)),
            InputStop::Memory => End::Memory,
        }
    }
}

impl From<StartEnd> for End {
    ghost use Rattle.tool_top.specs.Inside.Ends.{end_of_start};

    ghost from_gives = { λ start end. end ≡ end_of_start start };

    fn from(refused: StartEnd) -> End {
        match refused {
            StartEnd::Refused(first, second) => End::BadRestart(first, second),
            StartEnd::Failed(slot) => End::Outside(part_of_slot(slot)),
            StartEnd::Memory => End::Memory,
        }
    }
}

impl From<Stopped> for End {
    ghost use Rattle.tool_top.specs.Inside.Ends.{end_of_stopped};

    ghost from_gives = { λ stopped end. end ≡ end_of_stopped stopped };

    fn from(stopped: Stopped) -> End {
        match stopped.end {
            RunEnd::Overflow { stage, place } => End::Overflow { stage, place },
            RunEnd::Pairs {
                stage,
                norm,
                needed,
            } => End::Pairs {
                stage,
                norm,
                needed,
            },
            RunEnd::Rows { stage, norm, count } => End::Rows { stage, norm, count },
            // The next backup was refused.
            RunEnd::Failed => End::Outside(part_of_slot(stopped.next)),
            RunEnd::Memory => End::Memory,
        }
    }
}

// The end where a call on this file was refused.
pub(crate) fn refused_at(part: Part, refused: PutEnd) -> End
    ensures { result ≡ end_at part refused }
{
    match refused {
        PutEnd::Failed => End::Outside(part),
        PutEnd::Memory => End::Memory,
    }
}

/// The numbers of a run that has written all.
#[derive(Clone, Copy)]
pub struct Totals {
    /// The rows of all files.
    pub solutions: u64,
    /// The used pairs.
    pub pairs: u64,
    /// The sum of the rows' norms.
    pub norm_total: u128,
}

/// The end of a run that has come to its numbers, or was stopped.
pub fn settle(outcome: Result<Totals, End>) -> End
    ensures { result ≡ end_of outcome }
{
    match outcome {
        Ok(totals) => End::Done {
            solutions: totals.solutions,
            pairs: totals.pairs,
            norm_total: totals.norm_total,
        },
        Err(end) => end,
    }
}

/// The exit status of a program, and the end behind it.
#[derive(Debug, Drop)]
pub struct Status {
    /// 0 where all is done, 1 for wrong words, 2 for a fault of the input, 3 for an overflow, 4 for a spent budget, 5 for
    /// a device's fault, 6 where memory ran out.
    pub code: u8,
    /// The end that it stands for.
    pub end: End,
}

// Whether all is done.
pub(crate) fn is_done(end: &End) -> bool
    ensures done { IsTrue result → IsDoneEnd end.now }
    ensures other { IsDoneEnd end.now → IsTrue result }
{
    match end {
        End::Done { .. } => true,
        _ => false,
    }
}

// The exit status of an end.
pub(crate) fn code(end: &End) -> u8
    ensures { result ≡ code_of end.now }
{
    match end {
        End::Done { .. } => 0,
        End::Usage => 1,
        End::Missing(_) | End::TooLong(_) | End::Text(..) | End::Refused(_) => 2,
        End::Shape(_) | End::BadRestart(..) => 2,
        End::Overflow { .. } => 3,
        End::Pairs { .. } | End::Rows { .. } => 4,
        End::Outside(_) => 5,
        End::Memory => 6,
    }
}
