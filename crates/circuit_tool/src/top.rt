//! The run of the tool.

ghost use Rattle.std.specs.Prelude.{◌≡◌, ◌↔◌, ◌≤◌, ◌⊎◌, ℕ, [], None, Result, Err, IfSome, OnOk, OnErr, unwrap_or};
ghost use Rattle.std.specs.Io.KnownBytes.{append_known};
ghost use Rattle.outside.specs.Causes.{Rose};
ghost use Rattle.outside.specs.Causes.{HasCause as HasPutCause};
ghost use Rattle.outside.specs.Pieces.{MayPut};
ghost use Rattle.circuit_tool.specs.Ends.{code_of, end_of, stop_of, summary_of, AreInKernel, Told, Published, Ends, EndsWith, Says, HasCause, HasCauses};
ghost use Rattle.circuit_tool.specs.Sets.{project_in, planned};
ghost use Rattle.circuit_tool.specs.Laws.{LeastRowsAreCircuits};
ghost use Rattle.circuit_tool.specs.declared.ends.Stop.{Stop};

use crate::ends::{Stop, code, end};
use crate::laws::circuit_law;
use crate::messages::say;
use crate::projects::{project, project_or_nothing};
use crate::reading::{Sets, read_sets};
use crate::selection::least_rows;
use crate::{CirEnd, CirStatus};
use itoa::Buffer;
use mat_files::Grid;
use outside::{Folder, PutEnd, Sink, Words, put_pieces};
use std::alloc::Global;
use system_files::kernel_fault;
use tool_frame::write_output;

// The end of a refused call of the folder or of standard output.
fn stopped(end: PutEnd) -> Stop
    ensures { result ≡ stop_of end }
{
    match end {
        PutEnd::Failed => Stop::Outside,
        PutEnd::Memory => Stop::Memory,
    }
}

// Puts the summary.
fn put_summary<O: Sink>(out: &mut O, circuits: u64) -> Result<(), PutEnd>
    ensures done { OnOk result
        (O.held out.new ≡ append_known (O.held out.old) (summary_of circuits)) }
    ensures refused { OnErr result
        (MayPut (summary_of circuits) (O.held out.old) (O.held out.new)) }
    ensures cause { HasPutCause (O.faults out.old) (O.faults out.new) result }
{
    let mut digits = Buffer::new();
    put_pieces(out, &[digits.format(circuits).as_bytes(), b" circuits\n"])
}

// Puts the summary of rows that are written.
fn tell<O: Sink>(out: &mut O, circuits: u64) -> Result<u64, Stop>
    ensures words { result ≡ Err Stop.Usage → ⊥ }
    ensures told { Told circuits (O.held out.old) (O.held out.new) result }
    ensures cause { HasCause (O.faults out.old) (O.faults out.new) result }
{
    match put_summary(out, circuits) {
        Ok(()) => Ok(circuits),
        Err(end) => Err(stopped(end)),
    }
}

// Writes the rows, and tells how many they are.
fn publish<F: Folder, O: Sink>(
    alloc: Global,
    project: &str,
    grid: &Grid,
    folder: &mut F,
    out: &mut O,
) -> Result<u64, Stop>
    ensures words { result ≡ Err Stop.Usage → ⊥ }
    ensures published { Published project.now grid.now (F.held folder.old) (F.held folder.new)
        (O.held out.old) (O.held out.new) result }
    ensures cause { HasCauses (F.faults folder.old) (F.faults folder.new) (O.faults out.old)
        (O.faults out.new) result }
{
    match write_output(alloc, folder, project, ".cir", grid) {
        Ok(()) => tell(out, u64::from(grid.rows)),
        Err(end) => Err(stopped(end)),
    }
}

// Writes the rows of least support of a set in the kernel.
fn write_rows<F: Folder, O: Sink>(
    alloc: Global,
    project: &str,
    sets: &Sets,
    folder: &mut F,
    out: &mut O,
) -> Result<u64, Stop>
    requires columns { (sets.now.mat.cols ≡ sets.now.set.cols) × (sets.now.mat.cols ≤ 64) }
    requires kernel { AreInKernel sets.now }
    ensures ends { IfSome (F.held folder.old) (λ files. EndsWith project.now sets.now
        (record {
          files_before = files;
          files_after = F.held folder.new;
          out_before = O.held out.old;
          out_after = O.held out.new;
        }) result) }
    ensures words { result ≡ Err Stop.Usage → ⊥ }
    ensures cause { HasCauses (F.faults folder.old) (F.faults folder.new) (O.faults out.old)
        (O.faults out.new) result }
{
    match least_rows(alloc, &sets.set) {
        Ok(grid) => publish(alloc, project, &grid, folder, out),
        Err(_) => Err(Stop::Memory),
    }
}

// What the run of a matrix and a set comes to.
fn conclude<F: Folder, O: Sink>(
    alloc: Global,
    project: &str,
    sets: &Sets,
    folder: &mut F,
    out: &mut O,
) -> Result<u64, Stop>
    requires { (sets.now.mat.cols ≡ sets.now.set.cols) × (sets.now.mat.cols ≤ 64) }
    ensures ends { IfSome (F.held folder.old) (λ files. EndsWith project.now sets.now
        (record {
          files_before = files;
          files_after = F.held folder.new;
          out_before = O.held out.old;
          out_after = O.held out.new;
        }) result) }
    ensures words { result ≡ Err Stop.Usage → ⊥ }
    ensures cause { HasCauses (F.faults folder.old) (F.faults folder.new) (O.faults out.old)
        (O.faults out.new) result }
{
    match kernel_fault(&sets.mat, &sets.set) {
        Some(row) => Err(Stop::NotKernel { row }),
        None => write_rows(alloc, project, sets, folder, out),
    }
}

// All steps, and what they come to.
fn finish<F: Folder, O: Sink>(
    alloc: Global,
    words: &Words,
    folder: &mut F,
    out: &mut O,
) -> Result<u64, Stop>
    ensures ends { IfSome (F.held folder.old) (λ files. Ends (planned words.now files)
        (record {
          files_before = files;
          files_after = F.held folder.new;
          out_before = O.held out.old;
          out_after = O.held out.new;
        }) result) }
    ensures words { result ≡ Err Stop.Usage ↔ (project_in words.now ≡ None) }
    ensures cause { HasCauses (F.faults folder.old) (F.faults folder.new) (O.faults out.old)
        (O.faults out.new) result }
{
    let Some(project) = project(words) else {
        return Err(Stop::Usage);
    };
    match read_sets(alloc, folder, project) {
        Ok(sets) => conclude(alloc, project, &sets, folder, out),
        Err(stop) => Err(stop),
    }
}

/// Writes the circuits of a matrix: reads the project's matrix (`.mat`) and a set of vectors of its kernel (`.gra`),
/// writes the rows of the set of least support to `.cir`, in lexicographic order, each once, and puts their number on
/// `out`. `words` are the command's words without the program's name. Where it stops, it puts a line on `err`.
///
/// Where the set is the Graver basis of the matrix, the rows are exactly its circuits, one of each and its negative: the
/// nonzero whole vectors of the kernel with coprime entries and least support.
///
/// The end is the first that fits: [`CirEnd::Usage`] where the words are not one project name; [`CirEnd::File`] for a
/// fault of `.mat` (at most 4,194,304 bytes, 64 rows, 64 columns) and then of `.gra` (at most 2^28 bytes, 2^21 rows, 64
/// columns); [`CirEnd::Shape`]; [`CirEnd::NotKernel`]; else [`CirEnd::Done`]. [`CirEnd::Outside`] and [`CirEnd::Memory`]
/// may come in place of each but `Usage`.
pub fn run_circuits<F: Folder, O: Sink, E: Sink>(
    alloc: Global,
    words: &Words,
    folder: &mut F,
    out: &mut O,
    err: &mut E,
) -> CirStatus
    // Which end it is, what is said, and what then stands in the folder and on standard output.
    ensures ends { (outcome : Result ℕ Stop) × (result.end ≡ end_of outcome)
        × Says (unwrap_or (project_in words.now) []) outcome (E.held err.old) (E.held err.new)
        × IfSome (F.held folder.old) (λ files. Ends (planned words.now files)
        (record {
          files_before = files;
          files_after = F.held folder.new;
          out_before = O.held out.old;
          out_after = O.held out.new;
        }) outcome) }

    // Of a Graver basis, the rows that are written are exactly the circuits.
    ensures circuits { LeastRowsAreCircuits }

    // Whether the words are a command's is decided by the words alone.
    ensures words { result.end ≡ CirEnd.Usage ↔ (project_in words.now ≡ None) }

    // A device's fault is answered only where its count rose.
    ensures fault { result.end ≡ CirEnd.Outside
        → Rose (F.faults folder.old) (F.faults folder.new)
        ⊎ Rose (O.faults out.old) (O.faults out.new) }
    ensures code { result.code ≡ code_of result.end }
{
    circuit_law();
    let outcome = finish(alloc, words, folder, out);
    say(err, project_or_nothing(words), outcome);
    let end = end(outcome);
    CirStatus {
        code: code(end),
        end,
    }
}
