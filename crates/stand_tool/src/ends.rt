//! How the command ends.

ghost use Rattle.std.specs.Prelude.{◌≡◌, IsTrue};
ghost use Rattle.stand_tool.specs.Ends.{StandsFor, IsDoneEnd, code_of};
ghost use Rattle.stand_tool.specs.Inside.Ends.{IsOfRun};

use standing_pool::StandEnd;
use system_files::{InputFault, InputStop};
use tool_top::End;
use tool_words::WordEnd;

/// How a run ends.
#[derive(Debug, Drop)]
pub enum TopEnd {
    /// All is written: how many rows all files have, and how many pairs were used.
    Done { solutions: u64, pairs: u64 },
    /// The words are not those of the command.
    Usage,
    /// The project's files have this fault.
    Input(InputFault),
    /// The run came to this end, which is not out of memory.
    Run(StandEnd),
    /// A call of the folder or of standard output failed.
    Outside,
    /// Memory ran out.
    Memory,
}

/// The exit status of the program, and the end behind it.
#[derive(Debug, Drop)]
pub struct StandStatus {
    /// 0 where all is done, 1 for wrong words, 2 for a fault of the input, 3 for an overflow, 4 for a spent budget, 5 for
    /// a device's fault, 6 where memory ran out.
    pub code: u8,
    /// The end that it stands for.
    pub end: TopEnd,
}

impl From<WordEnd> for TopEnd {
    ghost use Rattle.stand_tool.specs.Inside.Ends.{end_of_words};

    ghost from_gives = { λ words end. end ≡ end_of_words words };

    fn from(refused: WordEnd) -> TopEnd {
        match refused {
            WordEnd::Usage => TopEnd::Usage,
            WordEnd::Memory => TopEnd::Memory,
        }
    }
}

impl From<InputStop> for TopEnd {
    ghost use Rattle.stand_tool.specs.Inside.Ends.{end_of_stop};

    ghost from_gives = { λ stop end. end ≡ end_of_stop stop };

    fn from(stopped: InputStop) -> TopEnd {
        match stopped {
            InputStop::Bad(fault) => TopEnd::Input(fault),
            InputStop::Failed(_) => TopEnd::Outside,
            InputStop::Memory => TopEnd::Memory,
        }
    }
}

// The end that stands for that of a command whose system was read.
pub(crate) fn end_for(end: End) -> TopEnd
    requires { IsOfRun end }
    ensures { StandsFor result end }
{
    match end {
        End::Done {
            solutions,
            pairs,
            ..
        } => TopEnd::Done { solutions, pairs },
        End::Overflow { stage, place } => TopEnd::Run(StandEnd::Overflow { stage, place }),
        End::Pairs {
            stage,
            norm,
            needed,
        } => TopEnd::Run(StandEnd::Pairs {
            stage,
            norm,
            needed,
        }),
        End::Rows { stage, norm, count } => TopEnd::Run(StandEnd::Rows { stage, norm, count }),
        End::Outside(_) => TopEnd::Outside,
        End::Memory => TopEnd::Memory,
        _ => unreachable!(),
    }
}

// Whether all is done.
pub(crate) fn is_done(end: &TopEnd) -> bool
    ensures done { IsTrue result → IsDoneEnd end.now }
    ensures other { IsDoneEnd end.now → IsTrue result }
{
    match end {
        TopEnd::Done { .. } => true,
        _ => false,
    }
}

// The exit status of an end.
pub(crate) fn code(end: &TopEnd) -> u8
    ensures { result ≡ code_of end.now }
{
    match end {
        TopEnd::Done { .. } => 0,
        TopEnd::Usage => 1,
        TopEnd::Input(_) => 2,
        TopEnd::Run(StandEnd::Overflow { .. }) => 3,
        TopEnd::Run(StandEnd::Pairs { .. } | StandEnd::Rows { .. }) => 4,
        TopEnd::Outside => 5,
        TopEnd::Run(StandEnd::Memory) | TopEnd::Memory => 6,
    }
}
