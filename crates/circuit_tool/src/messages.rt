//! The line on standard error.

ghost use Rattle.std.specs.Prelude.{◌≡◌, OnOk, OnErr};
ghost use Rattle.std.specs.Option.{option_map};
ghost use Rattle.std.specs.Io.KnownBytes.{append_known};
ghost use Rattle.outside.specs.Causes.{HasCause};
ghost use Rattle.outside.specs.Pieces.{MayPut};
ghost use Rattle.tool_frame.specs.Wordings.{words_in};
ghost use Rattle.circuit_tool.specs.Ends.{place_of, said_of, message_of, Says};

use crate::CirFile;
use crate::ends::Stop;
use crate::reading::limits;
use outside::{PutEnd, Sink};
use tool_frame::{Wording, fault_wording, plain_wording, put_message, shape_wording};

// The ending of the file that the line speaks of.
fn place(stop: Stop) -> Option<&'static str>
    ensures { option_map (λ e. e.now) result ≡ place_of stop }
{
    match stop {
        Stop::Usage | Stop::Outside | Stop::Memory => None,
        Stop::File(file, _) => Some(file.ending()),
        Stop::Shape { .. } | Stop::NotKernel { .. } => Some(CirFile::Gra.ending()),
    }
}

// What the line says.
fn wording(stop: Stop) -> Wording
    ensures { words_in result ≡ said_of stop }
{
    match stop {
        Stop::Usage => plain_wording("usage: circuits PROJECT"),
        Stop::File(file, fault) => fault_wording(&fault, limits(file)),
        Stop::Shape { rows, cols } => shape_wording(rows, cols),
        Stop::NotKernel { row } => Wording {
            before: "row ",
            first: Some(u64::from(row)),
            between: ": not in the kernel",
            second: None,
            after: "",
        },
        Stop::Outside => plain_wording("device failure"),
        Stop::Memory => plain_wording("out of memory"),
    }
}

// Puts the line that says why a run stopped. After a refusal a prefix of it was put.
fn put_stop<E: Sink>(err: &mut E, project: &str, stop: Stop) -> Result<(), PutEnd>
    ensures done { OnOk result
        (E.held err.new ≡ append_known (E.held err.old) (message_of project.now stop)) }
    ensures refused { OnErr result
        (MayPut (message_of project.now stop) (E.held err.old) (E.held err.new)) }
    ensures cause { HasCause (E.faults err.old) (E.faults err.new) result }
{
    put_message(err, "circuits", project, place(stop), &wording(stop))
}

// Says why a run stopped, if it did. A failure of standard error changes nothing else.
pub(crate) fn say<E: Sink>(err: &mut E, project: &str, outcome: Result<u64, Stop>)
    ensures { Says project.now outcome (E.held err.old) (E.held err.new) }
{
    match outcome {
        Ok(_) => {}
        Err(stop) => {
            let _ = put_stop(err, project, stop);
        }
    }
}
