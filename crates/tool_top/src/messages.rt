//! The line that a command puts on standard error where it does not end well.
//!
//! Every text is put piece by piece, so that no memory is taken.

ghost use Rattle.std.specs.Prelude.{◌≡◌, ◌++◌, ◌∷◌, [], OnOk, OnErr, codes, decimal};
ghost use Rattle.std.specs.Fmt.{signed_decimal};
ghost use Rattle.std.specs.Io.KnownBytes.{append_known};
ghost use Rattle.outside.specs.Causes.{HasCause};
ghost use Rattle.outside.specs.Pieces.{MayPut, text_of_parts};
ghost use Rattle.tool_top.specs.Messages.{IsDoneEnd, about, bad_sign, entries, message_of, overflow_words, part_name, shape_fault_words, shape_part, text_fault, tool_name, usage_of, line_words, wrong_shape};

use crate::causes::put_causes;
use crate::names::ending;
use crate::{End, Part};
use itoa::Buffer;
use lift_core::Tool;
use lift_run::Place;
use mat_files::TextFault;
use outside::{PutEnd, Sink, put_pieces};
use system_shape::ShapeFault;

/// Puts a text.
pub fn put_text<E: Sink>(err: &mut E, text: &[u8]) -> Result<(), PutEnd>
    ensures done { OnOk result
        (E.held err.new ≡ append_known (E.held err.old) (text_of_parts (text.now ∷ []))) }
    ensures refused { OnErr result
        (MayPut (text_of_parts (text.now ∷ [])) (E.held err.old) (E.held err.new)) }
    ensures cause { HasCause (E.faults err.old) (E.faults err.new) result }
{
    put_pieces(err, &[text])
}

// Puts two texts.
fn put_two<E: Sink>(err: &mut E, first: &[u8], second: &[u8]) -> Result<(), PutEnd>
    ensures done { OnOk result
        (E.held err.new
        ≡ append_known (E.held err.old) (text_of_parts (first.now ∷ second.now ∷ []))) }
    ensures refused { OnErr result
        (MayPut (text_of_parts (first.now ∷ second.now ∷ [])) (E.held err.old) (E.held err.new)) }
    ensures cause { HasCause (E.faults err.old) (E.faults err.new) result }
{
    put_pieces(err, &[first, second])
}

// Puts three texts.
fn put_three<E: Sink>(err: &mut E, first: &[u8], second: &[u8], third: &[u8]) -> Result<(), PutEnd>
    ensures done { OnOk result
        (E.held err.new
        ≡ append_known (E.held err.old)
        (text_of_parts (first.now ∷ second.now ∷ third.now ∷ []))) }
    ensures refused { OnErr result
        (MayPut (text_of_parts (first.now ∷ second.now ∷ third.now ∷ [])) (E.held err.old)
        (E.held err.new)) }
    ensures cause { HasCause (E.faults err.old) (E.faults err.new) result }
{
    put_pieces(err, &[first, second, third])
}

// Puts a number between two texts.
pub(crate) fn put_number<E: Sink>(
    err: &mut E,
    before: &[u8],
    number: u64,
    after: &[u8],
) -> Result<(), PutEnd>
    ensures done { OnOk result
        (E.held err.new
        ≡ append_known (E.held err.old)
        (text_of_parts (before.now ∷ decimal number ∷ after.now ∷ []))) }
    ensures refused { OnErr result
        (MayPut (text_of_parts (before.now ∷ decimal number ∷ after.now ∷ [])) (E.held err.old)
        (E.held err.new)) }
    ensures cause { HasCause (E.faults err.old) (E.faults err.new) result }
{
    let mut digits = Buffer::new();
    put_pieces(err, &[before, digits.format(number).as_bytes(), after])
}

// Puts a number and a text.
fn put_count<E: Sink>(err: &mut E, number: u64, after: &[u8]) -> Result<(), PutEnd>
    ensures done { OnOk result
        (E.held err.new
        ≡ append_known (E.held err.old) (text_of_parts (decimal number ∷ after.now ∷ []))) }
    ensures refused { OnErr result
        (MayPut (text_of_parts (decimal number ∷ after.now ∷ [])) (E.held err.old)
        (E.held err.new)) }
    ensures cause { HasCause (E.faults err.old) (E.faults err.new) result }
{
    let mut digits = Buffer::new();
    put_pieces(err, &[digits.format(number).as_bytes(), after])
}

// Puts an entry behind a space.
fn put_entry<E: Sink>(err: &mut E, cell: i64) -> Result<(), PutEnd>
    ensures done { OnOk result
        (E.held err.new
        ≡ append_known (E.held err.old) (text_of_parts ((32 ∷ signed_decimal cell) ∷ []))) }
    ensures refused { OnErr result
        (MayPut (text_of_parts ((32 ∷ signed_decimal cell) ∷ [])) (E.held err.old)
        (E.held err.new)) }
    ensures cause { HasCause (E.faults err.old) (E.faults err.new) result }
{
    let mut digits = Buffer::new();
    put_pieces(err, &[b" ", digits.format(cell).as_bytes()])
}

// Puts the entries of a solution, each behind a space.
fn put_entries<E: Sink>(err: &mut E, cells: &[i64]) -> Result<(), PutEnd>
    ensures done { OnOk result
        (E.held err.new ≡ append_known (E.held err.old) (text_of_parts (entries cells.now))) }
    ensures refused { OnErr result
        (MayPut (text_of_parts (entries cells.now)) (E.held err.old) (E.held err.new)) }
    ensures cause { HasCause (E.faults err.old) (E.faults err.new) result }
{
    for cell in cells {
        put_entry(err, *cell)?;
    }
    Ok(())
}

// Puts the name of a part's file, and a colon.
pub(crate) fn put_file<E: Sink>(err: &mut E, project: &str, part: Part) -> Result<(), PutEnd>
    ensures done { OnOk result (E.held err.new ≡ append_known (E.held err.old)
        (text_of_parts (part_name project.now part ∷ codes ": " ∷ []))) }
    ensures refused { OnErr result (MayPut
        (text_of_parts (part_name project.now part ∷ codes ": " ∷ []))
        (E.held err.old) (E.held err.new)) }
    ensures cause { HasCause (E.faults err.old) (E.faults err.new) result }
{
    match part {
        Part::Out => put_two(err, b"standard output", b": "),
        part => put_three(err, project.as_bytes(), ending(part).as_bytes(), b": "),
    }
}

// Puts a file's name, and a text that is said of it.
fn put_about<E: Sink>(err: &mut E, project: &str, part: Part, text: &[u8]) -> Result<(), PutEnd>
    ensures done { OnOk result
        (E.held err.new
        ≡ append_known (E.held err.old)
        (text_of_parts (about project.now part (text.now ∷ [])))) }
    ensures refused { OnErr result
        (MayPut (text_of_parts (about project.now part (text.now ∷ []))) (E.held err.old)
        (E.held err.new)) }
    ensures cause { HasCause (E.faults err.old) (E.faults err.new) result }
{
    put_file(err, project, part)?;
    put_text(err, text)
}

// Puts what is wrong with a text.
fn put_text_fault<E: Sink>(err: &mut E, fault: TextFault) -> Result<(), PutEnd>
    ensures done { OnOk result
        (E.held err.new ≡ append_known (E.held err.old) (text_of_parts (text_fault fault))) }
    ensures refused { OnErr result
        (MayPut (text_of_parts (text_fault fault)) (E.held err.old) (E.held err.new)) }
    ensures cause { HasCause (E.faults err.old) (E.faults err.new) result }
{
    match fault {
        TextFault::NotNumber { at } => put_number(err, b"byte ", at, b": not a number"),
        TextFault::NotRelation { at } => put_number(err, b"byte ", at, b": not a relation"),
        TextFault::NotCap { at } => put_number(err, b"byte ", at, b": not a cap"),
        TextFault::OutOfRange { at } => put_number(err, b"byte ", at, b": out of range"),
        TextFault::Early { at } => put_number(err, b"byte ", at, b": more expected"),
        TextFault::Extra { at } => put_number(err, b"byte ", at, b": nothing more expected"),
        TextFault::TooManyRows { found } => put_count(err, found, b" rows, at most 64"),
        TextFault::TooManyCols { found } => put_count(err, found, b" columns, at most 64"),
        TextFault::NoCols => put_text(err, b"no columns"),
    }
}

// Puts a file's name, and what is wrong with its text.
fn put_text_line<E: Sink>(
    err: &mut E,
    project: &str,
    part: Part,
    fault: TextFault,
) -> Result<(), PutEnd>
    ensures done { OnOk result
        (E.held err.new
        ≡ append_known (E.held err.old)
        (text_of_parts (about project.now part (text_fault fault)))) }
    ensures refused { OnErr result
        (MayPut (text_of_parts (about project.now part (text_fault fault))) (E.held err.old)
        (E.held err.new)) }
    ensures cause { HasCause (E.faults err.old) (E.faults err.new) result }
{
    put_file(err, project, part)?;
    put_text_fault(err, fault)
}

// Puts the wrong shape of a matrix.
fn put_shape<E: Sink>(err: &mut E, rows: u32, cols: u32) -> Result<(), PutEnd>
    ensures done { OnOk result
        (E.held err.new ≡ append_known (E.held err.old) (text_of_parts (wrong_shape rows cols))) }
    ensures refused { OnErr result
        (MayPut (text_of_parts (wrong_shape rows cols)) (E.held err.old) (E.held err.new)) }
    ensures cause { HasCause (E.faults err.old) (E.faults err.new) result }
{
    let mut first = Buffer::new();
    let mut second = Buffer::new();
    put_pieces(
        err,
        &[
            b"wrong shape ",
            first.format(rows).as_bytes(),
            b" x ",
            second.format(cols).as_bytes(),
        ],
    )
}

// Puts a sign that is none.
fn put_bad_sign<E: Sink>(err: &mut E, at: u32, value: i64) -> Result<(), PutEnd>
    ensures done { OnOk result
        (E.held err.new ≡ append_known (E.held err.old) (text_of_parts (bad_sign at value))) }
    ensures refused { OnErr result
        (MayPut (text_of_parts (bad_sign at value)) (E.held err.old) (E.held err.new)) }
    ensures cause { HasCause (E.faults err.old) (E.faults err.new) result }
{
    let mut first = Buffer::new();
    let mut second = Buffer::new();
    put_pieces(
        err,
        &[
            b"column ",
            first.format(at).as_bytes(),
            b": bad sign ",
            second.format(value).as_bytes(),
        ],
    )
}

// Puts what is wrong with the files that go with a matrix.
fn put_shape_fault<E: Sink>(err: &mut E, fault: ShapeFault) -> Result<(), PutEnd>
    ensures done { OnOk result
        (E.held err.new ≡ append_known (E.held err.old) (text_of_parts (shape_fault_words fault))) }
    ensures refused { OnErr result
        (MayPut (text_of_parts (shape_fault_words fault)) (E.held err.old) (E.held err.new)) }
    ensures cause { HasCause (E.faults err.old) (E.faults err.new) result }
{
    match fault {
        ShapeFault::SignNeeded => put_text(err, b"needed"),
        ShapeFault::SignShape { rows, cols } => put_shape(err, rows, cols),
        ShapeFault::BadSign { at, value } => put_bad_sign(err, at, value),
        ShapeFault::Free { at } => put_number(
            err,
            b"column ",
            at as u64,
            b": free variables are not supported",
        ),
        ShapeFault::RelShape { rows, cols } => put_shape(err, rows, cols),
        ShapeFault::RhsNotHere => put_text(err, b"only for zsolve"),
        ShapeFault::RhsShape { rows, cols } => put_shape(err, rows, cols),
        ShapeFault::CapShape { rows, cols } => put_shape(err, rows, cols),
    }
}

// The file in which the fault is seen.
fn shape_part(fault: ShapeFault) -> Part
    ensures { result ≡ shape_part fault }
{
    match fault {
        ShapeFault::RelShape { .. } => Part::Rel,
        ShapeFault::RhsNotHere | ShapeFault::RhsShape { .. } => Part::Rhs,
        ShapeFault::CapShape { .. } => Part::Cap,
        _ => Part::Sign,
    }
}

// Puts the name of the file in which the fault is seen, and what is wrong.
fn put_shape_line<E: Sink>(err: &mut E, project: &str, fault: ShapeFault) -> Result<(), PutEnd>
    ensures done { OnOk result (E.held err.new ≡ append_known (E.held err.old)
        (text_of_parts (about project.now (shape_part fault) (shape_fault_words fault)))) }
    ensures refused { OnErr result (MayPut
        (text_of_parts (about project.now (shape_part fault) (shape_fault_words fault)))
        (E.held err.old) (E.held err.new)) }
    ensures cause { HasCause (E.faults err.old) (E.faults err.new) result }
{
    put_file(err, project, shape_part(fault))?;
    put_shape_fault(err, fault)
}

// Puts a norm that leaves the range.
fn put_norm<E: Sink>(err: &mut E, stage: u32, norm: u64) -> Result<(), PutEnd>
    ensures done { OnOk result (E.held err.new ≡ append_known (E.held err.old)
        (text_of_parts
        (codes "overflow at equation " ∷ decimal stage ∷ codes ": norm " ∷ decimal norm
        ∷ []))) }
    ensures refused { OnErr result (MayPut
        (text_of_parts
        (codes "overflow at equation " ∷ decimal stage ∷ codes ": norm " ∷ decimal norm ∷ []))
        (E.held err.old) (E.held err.new)) }
    ensures cause { HasCause (E.faults err.old) (E.faults err.new) result }
{
    let mut first = Buffer::new();
    let mut second = Buffer::new();
    put_pieces(
        err,
        &[
            b"overflow at equation ",
            first.format(stage).as_bytes(),
            b": norm ",
            second.format(norm).as_bytes(),
        ],
    )
}

// Puts a solution with which a product leaves the range.
fn put_solution<E: Sink>(err: &mut E, stage: u32, cells: &[i64]) -> Result<(), PutEnd>
    ensures done { OnOk result (E.held err.new ≡ append_known (E.held err.old)
        (text_of_parts
        (codes "overflow at equation " ∷ decimal stage ∷ codes ": solution"
        ∷ entries cells.now))) }
    ensures refused { OnErr result (MayPut
        (text_of_parts
        (codes "overflow at equation " ∷ decimal stage ∷ codes ": solution"
        ∷ entries cells.now))
        (E.held err.old) (E.held err.new)) }
    ensures cause { HasCause (E.faults err.old) (E.faults err.new) result }
{
    put_number(err, b"overflow at equation ", stage as u64, b": solution")?;
    put_entries(err, cells)
}

// Puts a budget that is spent.
fn put_spent<E: Sink>(
    err: &mut E,
    budget: &[u8],
    stage: u32,
    norm: u64,
    needed: u64,
    things: &[u8],
) -> Result<(), PutEnd>
    ensures done { OnOk result (E.held err.new ≡ append_known (E.held err.old)
        (text_of_parts
        (budget.now ∷ decimal stage ∷ codes ", norm " ∷ decimal norm ∷ codes ": "
        ∷ decimal needed ∷ things.now ∷ []))) }
    ensures refused { OnErr result (MayPut
        (text_of_parts
        (budget.now ∷ decimal stage ∷ codes ", norm " ∷ decimal norm ∷ codes ": "
        ∷ decimal needed ∷ things.now ∷ []))
        (E.held err.old) (E.held err.new)) }
    ensures cause { HasCause (E.faults err.old) (E.faults err.new) result }
{
    let mut first = Buffer::new();
    let mut second = Buffer::new();
    let mut third = Buffer::new();
    put_pieces(
        err,
        &[
            budget,
            first.format(stage).as_bytes(),
            b", norm ",
            second.format(norm).as_bytes(),
            b": ",
            third.format(needed).as_bytes(),
            things,
        ],
    )
}

/// Puts what leaves the range.
pub fn put_overflow<E: Sink>(err: &mut E, stage: u32, place: &Place) -> Result<(), PutEnd>
    ensures done { OnOk result
        (E.held err.new
        ≡ append_known (E.held err.old) (text_of_parts (overflow_words stage place.now))) }
    ensures refused { OnErr result
        (MayPut (text_of_parts (overflow_words stage place.now)) (E.held err.old)
        (E.held err.new)) }
    ensures cause { HasCause (E.faults err.old) (E.faults err.new) result }
{
    match place {
        Place::Row(row) => put_solution(err, stage, row.cells()),
        Place::Norm(norm) => put_norm(err, stage, *norm),
    }
}

// The name of a tool.
fn tool_name(tool: Tool) -> &'static str
    ensures { result.now ≡ tool_name tool }
{
    match tool {
        Tool::Graver => "graver",
        Tool::Hilbert => "hilbert",
        Tool::Zsolve => "zsolve",
    }
}

// Puts the words that a command takes.
fn put_usage<E: Sink>(err: &mut E, tool: Tool) -> Result<(), PutEnd>
    ensures done { OnOk result
        (E.held err.new ≡ append_known (E.held err.old) (text_of_parts (usage_of tool))) }
    ensures refused { OnErr result
        (MayPut (text_of_parts (usage_of tool)) (E.held err.old) (E.held err.new)) }
    ensures cause { HasCause (E.faults err.old) (E.faults err.new) result }
{
    match tool {
        Tool::Graver => put_two(
            err,
            b"usage: graver [-q|--quiet] [--workers=N] [--pairs=N] [--rows=N] [--backup=N] [-r|--resume] PROJECT",
            b" or graver [-q|--quiet] [--workers=N] [--pairs=N] [--rows=N] --tables=K",
        ),
        Tool::Hilbert => put_text(
            err,
            b"usage: hilbert [-q|--quiet] [--workers=N] [--pairs=N] [--rows=N] [--backup=N] [-r|--resume] PROJECT",
        ),
        Tool::Zsolve => put_text(
            err,
            b"usage: zsolve [-q|--quiet] [--workers=N] [--pairs=N] [--rows=N] [--backup=N] [-r|--resume] PROJECT",
        ),
    }
}

/// Puts the pairs that would be needed.
pub fn put_pairs<E: Sink>(err: &mut E, stage: u32, norm: u64, needed: u64) -> Result<(), PutEnd>
    ensures done { OnOk result (E.held err.new ≡ append_known (E.held err.old)
        (text_of_parts (codes "pair budget spent at equation " ∷ decimal stage
        ∷ codes ", norm " ∷ decimal norm ∷ codes ": " ∷ decimal needed ∷ codes " pairs needed"
        ∷ []))) }
    ensures refused { OnErr result (MayPut
        (text_of_parts (codes "pair budget spent at equation " ∷ decimal stage
        ∷ codes ", norm " ∷ decimal norm ∷ codes ": " ∷ decimal needed ∷ codes " pairs needed"
        ∷ []))
        (E.held err.old) (E.held err.new)) }
    ensures cause { HasCause (E.faults err.old) (E.faults err.new) result }
{
    put_spent(
        err,
        b"pair budget spent at equation ",
        stage,
        norm,
        needed,
        b" pairs needed",
    )
}

/// Puts the rows that would be needed.
pub fn put_rows<E: Sink>(err: &mut E, stage: u32, norm: u64, count: u64) -> Result<(), PutEnd>
    ensures done { OnOk result (E.held err.new ≡ append_known (E.held err.old)
        (text_of_parts (codes "row budget spent at equation " ∷ decimal stage
        ∷ codes ", norm " ∷ decimal norm ∷ codes ": " ∷ decimal count ∷ codes " rows needed"
        ∷ []))) }
    ensures refused { OnErr result (MayPut
        (text_of_parts (codes "row budget spent at equation " ∷ decimal stage
        ∷ codes ", norm " ∷ decimal norm ∷ codes ": " ∷ decimal count ∷ codes " rows needed" ∷ []))
        (E.held err.old) (E.held err.new)) }
    ensures cause { HasCause (E.faults err.old) (E.faults err.new) result }
{
    put_spent(
        err,
        b"row budget spent at equation ",
        stage,
        norm,
        count,
        b" rows needed",
    )
}

/// Puts what a line says behind the tool's name. Of a run that is done it says nothing.
pub fn put_words<E: Sink>(err: &mut E, tool: Tool, project: &str, end: &End) -> Result<(), PutEnd>
    ensures done { OnOk result
        (E.held err.new
        ≡ append_known (E.held err.old) (text_of_parts (line_words tool project.now end.now))) }
    ensures refused { OnErr result
        (MayPut (text_of_parts (line_words tool project.now end.now)) (E.held err.old)
        (E.held err.new)) }
    ensures cause { HasCause (E.faults err.old) (E.faults err.new) result }
{
    match end {
        End::Done { .. } => put_text(err, b""),
        End::Usage => put_usage(err, tool),
        End::Missing(part) => put_about(err, project, *part, b"no such file"),
        End::TooLong(part) => put_about(err, project, *part, b"longer than 4194304 bytes"),
        End::Text(part, fault) => put_text_line(err, project, *part, *fault),
        End::Refused(part) => put_about(err, project, *part, b"not supported"),
        End::Shape(fault) => put_shape_line(err, project, *fault),
        End::BadRestart(first, second) => put_causes(err, project, *first, *second),
        End::Overflow { stage, place } => put_overflow(err, *stage, place),
        End::Pairs {
            stage,
            norm,
            needed,
        } => put_pairs(err, *stage, *norm, *needed),
        End::Rows { stage, norm, count } => put_rows(err, *stage, *norm, *count),
        End::Outside(part) => put_about(err, project, *part, b"device failure"),
        End::Memory => put_text(err, b"out of memory"),
    }
}

// Puts what a line says, and ends it.
fn put_line<E: Sink>(err: &mut E, tool: Tool, project: &str, end: &End) -> Result<(), PutEnd>
    ensures done { OnOk result (E.held err.new ≡ append_known (E.held err.old)
        (text_of_parts (line_words tool project.now end.now ++ codes "\n" ∷ []))) }
    ensures refused { OnErr result (MayPut
        (text_of_parts (line_words tool project.now end.now ++ codes "\n" ∷ []))
        (E.held err.old) (E.held err.new)) }
    ensures cause { HasCause (E.faults err.old) (E.faults err.new) result }
{
    put_words(err, tool, project, end)?;
    put_text(err, b"\n")
}

/// Puts the line of an end that is not Done: the tool's name, the file or the number that it speaks of, what is wrong,
/// and LF. Where the project is not known, it is empty. It takes no memory.
///
/// # Errors
/// The sink refused a part of the line. A prefix of the line was put.
pub fn put_message<E: Sink>(tool: Tool, project: &str, end: &End, err: &mut E) -> Result<(), PutEnd>
    requires { IsDoneEnd end.now → ⊥ }

    // The whole line came.
    ensures done { OnOk result
        (E.held err.new ≡ append_known (E.held err.old) (message_of tool project.now end.now)) }

    // A prefix of it came.
    ensures refused { OnErr result
        (MayPut (message_of tool project.now end.now) (E.held err.old) (E.held err.new)) }

    // The device failed only where its count rose.
    ensures cause { HasCause (E.faults err.old) (E.faults err.new) result }
{
    put_two(err, tool_name(tool).as_bytes(), b": ")?;
    put_line(err, tool, project, end)
}
