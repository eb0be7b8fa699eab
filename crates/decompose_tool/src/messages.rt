//! The line on standard error.
ghost use Rattle.std.specs.Prelude.{◌≡◌, ◌++◌, ◌∷◌, [], OnOk, OnErr, codes};
ghost use Rattle.std.specs.Fmt.{signed_decimal};
ghost use Rattle.std.specs.Option.{option_map};
ghost use Rattle.std.specs.Io.KnownBytes.{append_known};
ghost use Rattle.outside.specs.Causes.{HasCause};
ghost use Rattle.outside.specs.Pieces.{MayPut, text_of_parts};
ghost use Rattle.tool_frame.specs.Wordings.{words_in, with_number};
ghost use Rattle.decompose_tool.specs.Messages.{input_limits, shape_source, input_source, bad_sign_text, shape_fault_text, input_text, place_of, row_fault_text, said_of, message_of, entries, left_message, SaysEnding, Says};

use crate::ends::{Ending, RowFault, Stop};
use crate::reading::limits;
use itoa::Buffer;
use outside::{PutEnd, Sink, put_pieces};
use system_files::{InputFault, Source};
use system_shape::ShapeFault;
use tool_frame::{Limits, Wording, fault_wording, plain_wording, put_message, shape_wording};

// The most bytes, rows and columns of a file of the system.
fn input_limits() -> Limits
    ensures { result ≡ input_limits }
{
    Limits {
        bytes: 4_194_304,
        rows: 64,
        cols: 64,
    }
}

// The file in which a fault of the shape is seen.
fn shape_source(fault: ShapeFault) -> Source
    ensures { result ≡ shape_source fault }
{
    match fault {
        ShapeFault::SignNeeded
        | ShapeFault::SignShape { .. }
        | ShapeFault::BadSign { .. }
        | ShapeFault::Free { .. } => Source::Sign,
        ShapeFault::RelShape { .. } => Source::Rel,
        ShapeFault::RhsNotHere | ShapeFault::RhsShape { .. } => Source::Rhs,
        ShapeFault::CapShape { .. } => Source::Cap,
    }
}

// The file in which a fault of the system's files is seen.
fn input_source(fault: InputFault) -> Source
    ensures { result ≡ input_source fault }
{
    match fault {
        InputFault::File(source, _) | InputFault::Refused(source) => source,
        InputFault::Shape(fault) => shape_source(fault),
    }
}

// What is said of one number of a file.
fn numbered(before: &'static str, number: u32, after: &'static str) -> Wording
    ensures { words_in result ≡ with_number before.now number after.now }
{
    Wording {
        before,
        first: Some(u64::from(number)),
        between: after,
        second: None,
        after: "",
    }
}

// What is said of a sign that is none.
fn bad_sign_wording(at: u32, value: i64) -> Wording
    ensures { words_in result ≡ bad_sign_text at value }
{
    Wording {
        before: "column ",
        first: Some(u64::from(at)),
        between: if value < 0 {
            ": bad sign -"
        } else {
            ": bad sign "
        },
        second: Some(value.unsigned_abs()),
        after: "",
    }
}

// What is said of a fault of the shape.
fn shape_fault_wording(fault: ShapeFault) -> Wording
    ensures { words_in result ≡ shape_fault_text fault }
{
    match fault {
        ShapeFault::SignNeeded => plain_wording("needed"),
        ShapeFault::BadSign { at, value } => bad_sign_wording(at, value),
        ShapeFault::Free { at } => numbered("column ", at, ": free variables are not supported"),
        ShapeFault::RhsNotHere => plain_wording("only for zsolve"),
        ShapeFault::SignShape { rows, cols }
        | ShapeFault::RelShape { rows, cols }
        | ShapeFault::RhsShape { rows, cols }
        | ShapeFault::CapShape { rows, cols } => shape_wording(rows, cols),
    }
}

// What is said of a fault of the system's files.
fn input_wording(fault: InputFault) -> Wording
    ensures { words_in result ≡ input_text fault }
{
    match fault {
        InputFault::File(_, fault) => fault_wording(&fault, input_limits()),
        InputFault::Refused(_) => plain_wording("not supported"),
        InputFault::Shape(fault) => shape_fault_wording(fault),
    }
}

// The ending of the file that the line speaks of.
fn place(stop: Stop) -> Option<&'static str>
    ensures { option_map (λ e. e.now) result ≡ place_of stop }
{
    match stop {
        Stop::Usage | Stop::Outside | Stop::Memory => None,
        Stop::Input(fault) => Some(input_source(fault).ending()),
        Stop::File(file, _) | Stop::Shape(file, _, _) | Stop::Row(file, _, _) => {
            Some(file.ending())
        }
    }
}

// What is said of a row.
fn row_fault_text(fault: RowFault) -> &'static str
    ensures { result.now ≡ row_fault_text fault }
{
    match fault {
        RowFault::Range => ": out of range",
        RowFault::NotSolution => ": not a solution",
    }
}

// What the line says.
fn wording(stop: Stop) -> Wording
    ensures { words_in result ≡ said_of stop }
{
    match stop {
        Stop::Usage => plain_wording("usage: decompose TOOL PROJECT"),
        Stop::Input(fault) => input_wording(fault),
        Stop::File(file, fault) => fault_wording(&fault, limits(file)),
        Stop::Shape(_, rows, cols) => shape_wording(rows, cols),
        Stop::Row(_, row, fault) => numbered("row ", row, row_fault_text(fault)),
        Stop::Outside => plain_wording("device failure"),
        Stop::Memory => plain_wording("out of memory"),
    }
}

// Puts the line that says why a run stopped. After a refusal a prefix of it was put.
fn put_stop<E: Sink>(err: &mut E, project: &str, stop: Stop) -> Result<(), PutEnd>
    ensures done { OnOk result
        (E.held err.new ≡ append_known (E.held err.old) (message_of project.now stop)) }
    ensures refused { OnErr result
        (MayPut (message_of project.now stop) (E.held err.old) (E.held err.new)) }
    ensures cause { HasCause (E.faults err.old) (E.faults err.new) result }
{
    put_message(err, "decompose", project, place(stop), &wording(stop))
}

// Puts an entry behind a space.
fn put_entry<E: Sink>(err: &mut E, entry: i64) -> Result<(), PutEnd>
    ensures done { OnOk result
        (E.held err.new
        ≡ append_known (E.held err.old) (text_of_parts ((32 ∷ signed_decimal entry) ∷ []))) }
    ensures refused { OnErr result
        (MayPut (text_of_parts ((32 ∷ signed_decimal entry) ∷ [])) (E.held err.old)
        (E.held err.new)) }
    ensures cause { HasCause (E.faults err.old) (E.faults err.new) result }
{
    let mut digits = Buffer::new();
    put_pieces(err, &[b" ", digits.format(entry).as_bytes()])
}

// Puts the entries, each behind a space.
fn put_entries<E: Sink>(err: &mut E, v: &[i64]) -> Result<(), PutEnd>
    ensures done { OnOk result
        (E.held err.new ≡ append_known (E.held err.old) (text_of_parts (entries v.now))) }
    ensures refused { OnErr result
        (MayPut (text_of_parts (entries v.now)) (E.held err.old) (E.held err.new)) }
    ensures cause { HasCause (E.faults err.old) (E.faults err.new) result }
{
    for entry in v {
        put_entry(err, *entry)?;
    }
    Ok(())
}

// Puts the front of the line that says what is left.
fn put_front<E: Sink>(err: &mut E) -> Result<(), PutEnd>
    ensures done { OnOk result (E.held err.new ≡ append_known (E.held err.old)
        (text_of_parts (codes "decompose" ∷ codes ": " ∷ codes "nothing fits" ∷ []))) }
    ensures refused { OnErr result
        (MayPut (text_of_parts (codes "decompose" ∷ codes ": " ∷ codes "nothing fits" ∷ []))
        (E.held err.old)
        (E.held err.new)) }
    ensures cause { HasCause (E.faults err.old) (E.faults err.new) result }
{
    put_pieces(err, &[b"decompose", b": ", b"nothing fits"])
}

// Puts the end of a line.
fn put_line_end<E: Sink>(err: &mut E) -> Result<(), PutEnd>
    ensures done { OnOk result
        (E.held err.new ≡ append_known (E.held err.old) (text_of_parts (codes "\n" ∷ []))) }
    ensures refused { OnErr result
        (MayPut (text_of_parts (codes "\n" ∷ [])) (E.held err.old) (E.held err.new)) }
    ensures cause { HasCause (E.faults err.old) (E.faults err.new) result }
{
    put_pieces(err, &[b"\n"])
}

// Puts the entries, and ends the line.
fn put_rest<E: Sink>(err: &mut E, rest: &[i64]) -> Result<(), PutEnd>
    ensures done { OnOk result
        (E.held err.new
        ≡ append_known (E.held err.old) (text_of_parts (entries rest.now ++ codes "\n" ∷ []))) }
    ensures refused { OnErr result
        (MayPut (text_of_parts (entries rest.now ++ codes "\n" ∷ [])) (E.held err.old)
        (E.held err.new)) }
    ensures cause { HasCause (E.faults err.old) (E.faults err.new) result }
{
    put_entries(err, rest)?;
    put_line_end(err)
}

// Puts the line that says what is left. After a refusal a prefix of it was put.
fn put_left<E: Sink>(err: &mut E, rest: &[i64]) -> Result<(), PutEnd>
    ensures done { OnOk result
        (E.held err.new ≡ append_known (E.held err.old) (left_message rest.now)) }
    ensures refused { OnErr result
        (MayPut (left_message rest.now) (E.held err.old) (E.held err.new)) }
    ensures cause { HasCause (E.faults err.old) (E.faults err.new) result }
{
    put_front(err)?;
    put_rest(err, rest)
}

// Says what is left, if anything.
fn say_ending<E: Sink>(err: &mut E, ending: &Ending)
    ensures { SaysEnding ending.now (E.held err.old) (E.held err.new) }
{
    match ending {
        Ending::Done { .. } => {}
        Ending::Left { rest } => {
            let _ = put_left(err, rest.cells());
        }
    }
}

// Says what is left or why a run stopped, if so. A failure of standard error changes nothing else.
pub(crate) fn say<E: Sink>(err: &mut E, project: &str, outcome: &Result<Ending, Stop>)
    ensures { Says project.now outcome.now (E.held err.old) (E.held err.new) }
{
    match outcome {
        Ok(ending) => say_ending(err, ending),
        Err(stop) => {
            let _ = put_stop(err, project, *stop);
        }
    }
}
