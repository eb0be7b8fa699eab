//! The summary on standard output.

ghost use Rattle.std.specs.Prelude.{◌≡◌, None, Some, OnOk, OnErr};
ghost use Rattle.std.specs.Io.KnownBytes.{append_known};
ghost use Rattle.outside.specs.Causes.{HasCause};
ghost use Rattle.outside.specs.Pieces.{MayPut};
ghost use Rattle.tool_top.specs.Summary.{summary_lines, summary_of};

use itoa::Buffer;
use outside::{PutEnd, Sink, put_pieces};
use tool_words::Job;

// Puts the line of the two counts.
fn put_counts<O: Sink>(out: &mut O, solutions: u64, pairs: u64) -> Result<(), PutEnd>
    ensures done { OnOk result
        (O.held out.new ≡ append_known (O.held out.old) (summary_lines None solutions pairs 0)) }
    ensures refused { OnErr result
        (MayPut (summary_lines None solutions pairs 0) (O.held out.old) (O.held out.new)) }
    ensures cause { HasCause (O.faults out.old) (O.faults out.new) result }
{
    let mut first = Buffer::new();
    let mut second = Buffer::new();
    put_pieces(
        out,
        &[
            first.format(solutions).as_bytes(),
            b" solutions, ",
            second.format(pairs).as_bytes(),
            b" pairs\n",
        ],
    )
}

// Puts both lines, the second of which has the sum of the norms.
fn put_counts_and_norms<O: Sink>(
    out: &mut O,
    solutions: u64,
    pairs: u64,
    norms: u128,
) -> Result<(), PutEnd>
    ensures done { OnOk result (O.held out.new
        ≡ append_known (O.held out.old) (summary_lines (Some 2) solutions pairs norms)) }
    ensures refused { OnErr result
        (MayPut (summary_lines (Some 2) solutions pairs norms) (O.held out.old) (O.held out.new)) }
    ensures cause { HasCause (O.faults out.old) (O.faults out.new) result }
{
    let mut first = Buffer::new();
    let mut second = Buffer::new();
    let mut third = Buffer::new();
    put_pieces(
        out,
        &[
            first.format(solutions).as_bytes(),
            b" solutions, ",
            second.format(pairs).as_bytes(),
            b" pairs\n",
            b"norm total ",
            third.format(norms).as_bytes(),
            b"\n",
        ],
    )
}

// Puts the summary that the job asks for.
pub(crate) fn put_summary<O: Sink>(
    out: &mut O,
    job: &Job,
    solutions: u64,
    pairs: u64,
    norms: u128,
) -> Result<(), PutEnd>
    ensures done { OnOk result
        (O.held out.new
        ≡ append_known (O.held out.old) (summary_of job.now solutions pairs norms)) }
    ensures refused { OnErr result
        (MayPut (summary_of job.now solutions pairs norms) (O.held out.old) (O.held out.new)) }
    ensures cause { HasCause (O.faults out.old) (O.faults out.new) result }
{
    if job.quiet {
        return Ok(());
    }
    match job.tables {
        None => put_counts(out, solutions, pairs),
        Some(_) => put_counts_and_norms(out, solutions, pairs, norms),
    }
}
