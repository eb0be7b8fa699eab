//! The line that the command puts on standard error where it does not end well, piece by piece, so that no memory is taken.

ghost use Rattle.std.specs.Prelude.{◌≡◌, ◌∷◌, ◌++◌, [], OnOk, OnErr, codes};
ghost use Rattle.std.specs.Io.KnownBytes.{append_known};
ghost use Rattle.outside.specs.Pieces.{MayPut, text_of_parts};
ghost use Rattle.stand_tool.specs.Messages.{line_words, message_of, run_words};

use crate::TopEnd;
use lift_core::Tool;
use outside::{PutEnd, Sink};
use standing_pool::StandEnd;
use tool_top::{answer_of, put_overflow, put_pairs, put_rows, put_text, put_words};

// Puts what a line says of the end of a run.
fn put_run<E: Sink>(err: &mut E, end: &StandEnd) -> Result<(), PutEnd>
    ensures done { OnOk result
        (E.held err.new ≡ append_known (E.held err.old) (text_of_parts (run_words end.now))) }
    ensures refused { OnErr result
        (MayPut (text_of_parts (run_words end.now)) (E.held err.old) (E.held err.new)) }
{
    match end {
        StandEnd::Overflow { stage, place } => put_overflow(err, *stage, place),
        StandEnd::Pairs {
            stage,
            norm,
            needed,
        } => put_pairs(err, *stage, *norm, *needed),
        StandEnd::Rows { stage, norm, count } => put_rows(err, *stage, *norm, *count),
        StandEnd::Memory => put_text(err, b"out of memory"),
    }
}

// Puts what a line says behind the command's name. Of a run that is done it says nothing.
fn put_end<E: Sink>(err: &mut E, project: &str, end: &TopEnd) -> Result<(), PutEnd>
    ensures done { OnOk result
        (E.held err.new
        ≡ append_known (E.held err.old) (text_of_parts (line_words project.now end.now))) }
    ensures refused { OnErr result
        (MayPut (text_of_parts (line_words project.now end.now)) (E.held err.old)
        (E.held err.new)) }
{
    match end {
        TopEnd::Done { .. } => put_text(err, b""),
        TopEnd::Usage => put_text(
            err,
            b"usage: stand TOOL [-q|--quiet] [--workers=N] [--pairs=N] [--rows=N] PROJECT",
        ),
        // No fault of the files is told with the name of a tool, so any tool does.
        TopEnd::Input(fault) => put_words(err, Tool::Graver, project, &answer_of(*fault)),
        TopEnd::Run(end) => put_run(err, end),
        TopEnd::Outside => put_text(err, b"device failure"),
        TopEnd::Memory => put_text(err, b"out of memory"),
    }
}

// Puts what a line says, and ends it.
fn put_line<E: Sink>(err: &mut E, project: &str, end: &TopEnd) -> Result<(), PutEnd>
    ensures done { OnOk result (E.held err.new ≡ append_known (E.held err.old)
        (text_of_parts (line_words project.now end.now ++ codes "\n" ∷ []))) }
    ensures refused { OnErr result (MayPut
        (text_of_parts (line_words project.now end.now ++ codes "\n" ∷ []))
        (E.held err.old) (E.held err.new)) }
{
    put_end(err, project, end)?;
    put_text(err, b"\n")
}

// Puts the line of an end that is not Done. Where the project is not known, it is empty.
pub(crate) fn put_message<E: Sink>(project: &str, end: &TopEnd, err: &mut E) -> Result<(), PutEnd>
    ensures done { OnOk result
        (E.held err.new ≡ append_known (E.held err.old) (message_of project.now end.now)) }
    ensures refused { OnErr result
        (MayPut (message_of project.now end.now) (E.held err.old) (E.held err.new)) }
{
    put_text(err, b"stand: ")?;
    put_line(err, project, end)
}
