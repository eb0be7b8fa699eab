//! Why restart files are not accepted, as a line says it.

ghost use Rattle.std.specs.Prelude.{◌≡◌, ◌∷◌, OnOk, OnErr, codes};
ghost use Rattle.std.specs.Io.KnownBytes.{append_known};
ghost use Rattle.outside.specs.Causes.{HasCause};
ghost use Rattle.outside.specs.Pieces.{MayPut, text_of_parts};
ghost use Rattle.tool_top.specs.Messages.{about, cause_of, both_causes};

use crate::Part;
use crate::messages::{put_file, put_number, put_text};
use outside::{PutEnd, Sink};
use restart_file::RestartFault;

// Puts the cause.
fn put_cause<E: Sink>(err: &mut E, fault: RestartFault) -> Result<(), PutEnd>
    ensures done { OnOk result
        (E.held err.new ≡ append_known (E.held err.old) (text_of_parts (cause_of fault))) }
    ensures refused { OnErr result
        (MayPut (text_of_parts (cause_of fault)) (E.held err.old) (E.held err.new)) }
    ensures cause { HasCause (E.faults err.old) (E.faults err.new) result }
{
    match fault {
        RestartFault::Missing => put_text(err, b"no such file"),
        RestartFault::Digest => put_text(err, b"digest differs"),
        RestartFault::Text { line } => put_number(err, b"line ", line, b": bad text"),
        RestartFault::OtherSystem { line } => put_number(err, b"line ", line, b": other system"),
        RestartFault::NotSolution { line } => put_number(err, b"line ", line, b": not a solution"),
        RestartFault::Order { line } => put_number(err, b"line ", line, b": out of order"),
        RestartFault::Classes { line } => put_number(err, b"line ", line, b": wrong classes"),
        RestartFault::Used => put_text(err, b"used pairs too few"),
    }
}

// Puts the name of a restart file, and its cause.
fn put_file_cause<E: Sink>(
    err: &mut E,
    project: &str,
    part: Part,
    fault: RestartFault,
) -> Result<(), PutEnd>
    ensures done { OnOk result
        (E.held err.new
        ≡ append_known (E.held err.old)
        (text_of_parts (about project.now part (cause_of fault)))) }
    ensures refused { OnErr result
        (MayPut (text_of_parts (about project.now part (cause_of fault))) (E.held err.old)
        (E.held err.new)) }
    ensures cause { HasCause (E.faults err.old) (E.faults err.new) result }
{
    put_file(err, project, part)?;
    put_cause(err, fault)
}

// Puts the second file and its cause, behind a semicolon.
fn put_second_cause<E: Sink>(err: &mut E, project: &str, fault: RestartFault) -> Result<(), PutEnd>
    ensures done { OnOk result
        (E.held err.new
        ≡ append_known (E.held err.old)
        (text_of_parts (codes "; " ∷ about project.now Part.Ckp1 (cause_of fault)))) }
    ensures refused { OnErr result
        (MayPut (text_of_parts (codes "; " ∷ about project.now Part.Ckp1 (cause_of fault)))
        (E.held err.old) (E.held err.new)) }
    ensures cause { HasCause (E.faults err.old) (E.faults err.new) result }
{
    put_text(err, b"; ")?;
    put_file_cause(err, project, Part::Ckp1, fault)
}

// Puts both files, each with its cause.
pub(crate) fn put_causes<E: Sink>(
    err: &mut E,
    project: &str,
    first: RestartFault,
    second: RestartFault,
) -> Result<(), PutEnd>
    ensures done { OnOk result
        (E.held err.new
        ≡ append_known (E.held err.old)
        (text_of_parts (both_causes project.now first second))) }
    ensures refused { OnErr result
        (MayPut (text_of_parts (both_causes project.now first second)) (E.held err.old)
        (E.held err.new)) }
    ensures cause { HasCause (E.faults err.old) (E.faults err.new) result }
{
    put_file_cause(err, project, Part::Ckp0, first)?;
    put_second_cause(err, project, second)
}
