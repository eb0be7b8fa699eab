//! The writing of a restart file.

ghost use Rattle.std.specs.Prelude.{◌≡◌, ◌++◌, ◌<◌, ◌≤◌, ◌^◌, ℕ, [], List, Option, length, slice_index_or, map, OnOk, OnErr};
ghost use Rattle.std.specs.Option.{option_map};
ghost use Rattle.outside.specs.Causes.{HasCause};
ghost use Rattle.outside.specs.Files.{Files, written, MayWrite};
ghost use Rattle.restart_file.specs.Texts.{class_counts, progress_of, listed_lines, place_lines, restart_lines, sealed, text_of_stage};
ghost use Rattle.restart_file.specs.Inside.Sending.{IsSent};

use crate::classes::add_class;
use crate::lines::{
    Version, push_cells, push_counts, push_digest, push_system_line, system_line_count,
    version_text,
};
use outside::{Folder, PutEnd};
use row_pool::RowId;
use sha2::{Digest, Sha256};
use stage_store::Stage;
use std::alloc::{AllocError, Global};

// The least number of bytes that are sent in one append, the last ones apart.
const PIECE: usize = 65_536;

// How many listed rows have a last entry above 0, 0, and below 0.
fn class_counts(stage: &Stage) -> [u64; 3]
    ensures { result ≡ class_counts stage.now.listed }
{
    let mut counts = [0; 3];
    for i in 0..stage.len() {
        add_class(&mut counts, stage.row(RowId(i)));
    }
    counts
}

// Adds a line of the listed rows or behind them, numbered from 0.
fn push_listed_line(line: &mut Vec<u8>, stage: &Stage, i: u32) -> Result<(), AllocError>
    requires { i < length (listed_lines Version.Second (progress_of stage.now)) }
    ensures { OnOk result
        (line.new.items ≡ line.old.items
        ++ slice_index_or (listed_lines Version.Second (progress_of stage.now)) i []) }
{
    let listed = stage.len();
    if i < listed {
        return push_cells(line, b"", stage.row(RowId(i)));
    }
    match i - listed {
        0 => push_counts(line, b"classes ", &class_counts(stage)),
        1 => push_counts(line, b"waiting ", &[u64::from(stage.waiting_len())]),
        behind => push_cells(line, b"", stage.waiting_row(behind - 2)),
    }
}

// Adds a line of the place or behind it, numbered from 0.
fn push_place_line(line: &mut Vec<u8>, stage: &Stage, i: u32) -> Result<(), AllocError>
    requires { i < length (place_lines Version.Second (progress_of stage.now)) }
    ensures { OnOk result
        (line.new.items ≡ line.old.items
        ++ slice_index_or (place_lines Version.Second (progress_of stage.now)) i []) }
{
    match i {
        0 => push_counts(line, b"place ", &[u64::from(stage.number()), stage.norm()]),
        1 => push_counts(line, b"used ", &[stage.used()]),
        2 => push_counts(line, b"listed ", &[u64::from(stage.len())]),
        behind => push_listed_line(line, stage, behind - 3),
    }
}

// Adds a line of the stage's text, numbered from 0.
fn push_line(line: &mut Vec<u8>, stage: &Stage, i: u32) -> Result<(), AllocError>
    requires { i < length (restart_lines Version.Second stage.now.system (progress_of stage.now)) }
    ensures { OnOk result
        (line.new.items ≡ line.old.items
        ++ slice_index_or
        (restart_lines Version.Second stage.now.system (progress_of stage.now)) i []) }
{
    if i == 0 {
        return line.extend_from_slice(version_text(Version::Second));
    }
    let system = stage.system();
    let heads = system_line_count(Version::Second, system);
    if i - 1 < heads {
        push_system_line(line, Version::Second, system, i - 1)
    } else {
        push_place_line(line, stage, i - 1 - heads)
    }
}

// The number of lines but the last.
fn line_count(stage: &Stage) -> u32
    ensures { result
        ≡ length (restart_lines Version.Second stage.now.system (progress_of stage.now)) }
{
    stage.keeps();
    system_line_count(Version::Second, stage.system()) + stage.len() + stage.waiting_len() + 6
}

// Appends the piece, and hashes it. The piece is empty then.
fn send<F: Folder>(
    folder: &mut F,
    name: &str,
    piece: &mut Vec<u8>,
    hasher: &mut Sha256,
) -> Result<(), PutEnd>
    ensures done { (bytes rest : List ℕ) (before : Option Files)
        → IsSent name.now bytes (piece.old.items ++ rest) before (F.held folder.old) hasher.old →
        OnOk result (IsSent name.now bytes rest before (F.held folder.new) hasher.new) }
    ensures empty { OnOk result (piece.new.items ≡ []) }
    ensures refused { (bytes rest : List ℕ) (before : Option Files)
        → IsSent name.now bytes (piece.old.items ++ rest) before (F.held folder.old) hasher.old →
        OnErr result (MayWrite name.now (sealed bytes) before (F.held folder.new)) }
    ensures cause { HasCause (F.faults folder.old) (F.faults folder.new) result }
{
    hasher.update(piece.as_slice());
    folder.append(name, piece)?;
    piece.clear();
    Ok(())
}

// Appends the line of the digest of what was sent.
fn seal<F: Folder>(
    folder: &mut F,
    name: &str,
    piece: &mut Vec<u8>,
    hasher: Sha256,
) -> Result<(), PutEnd>
    requires { piece.old.items ≡ [] }
    ensures done { (bytes : List ℕ) (before : Option Files)
        → IsSent name.now bytes [] before (F.held folder.old) hasher →
        OnOk result (F.held folder.new ≡ option_map (written name.now (sealed bytes)) before) }
    ensures refused { (bytes : List ℕ) (before : Option Files)
        → IsSent name.now bytes [] before (F.held folder.old) hasher →
        OnErr result (MayWrite name.now (sealed bytes) before (F.held folder.new)) }
    ensures cause { HasCause (F.faults folder.old) (F.faults folder.new) result }
{
    let digest = hasher.finalize();
    push_digest(piece, &digest)?;
    folder.append(name, piece)
}

/// Writes the text of the stage into the file: begins it anew, and appends the lines, many at a time.
///
/// All other files stay as they are. It takes memory for one piece of lines.
///
/// # Errors
/// `Failed` where the folder failed, and `Memory` where memory ran out. The file is then as before, empty, or a prefix of
/// the text.
pub fn write_restart<F: Folder>(
    alloc: Global,
    stage: &Stage,
    folder: &mut F,
    name: &str,
) -> Result<(), PutEnd>
    ensures done { OnOk result
        (F.held folder.new
        ≡ option_map (written name.now (text_of_stage stage.now)) (F.held folder.old)) }
    ensures refused { OnErr result
        (MayWrite name.now (text_of_stage stage.now) (F.held folder.old) (F.held folder.new)) }
    ensures cause { HasCause (F.faults folder.old) (F.faults folder.new) result }
{
    folder.begin(name)?;
    let mut hasher = Sha256::new();
    let mut piece = Vec::new(alloc);
    for i in 0..line_count(stage) {
        push_line(&mut piece, stage, i)?;
        if piece.len() >= PIECE {
            send(folder, name, &mut piece, &mut hasher)?;
        }
    }
    send(folder, name, &mut piece, &mut hasher)?;
    seal(folder, name, &mut piece, hasher)
}
