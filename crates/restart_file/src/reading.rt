//! The reading of a restart file.

ghost use Rattle.std.specs.Prelude.{◌≡◌, ◌≢◌, ◌≤◌, ◌<◌, ◌^◌, ℕ, List, [], length, IfOk, IfSome, OnOk, Err};
ghost use Rattle.std.specs.FinMap.{get};
ghost use Rattle.restart_file.specs.declared.dues.Due.TheVariants.{LastLine};
ghost use Rattle.restart_file.specs.declared.ends.RestartEnd.TheVariants.{Failed};
ghost use Rattle.restart_file.specs.Reading.{start};
ghost use Rattle.restart_file.specs.Stored.{Restores, HasRestartCause};
ghost use Rattle.restart_file.specs.Inside.Drafts.{HasWidths, IsTrueSoFar, ReadsTo, cursor_of};
ghost use Rattle.restart_file.specs.Inside.Ways.{Builds, IsAllRead, ReadsLine};
ghost use Rattle.restart_file.specs.Inside.Windows.{IsTextLeft, TellsText};

use crate::drafts::{Draft, bad_text, empty_draft, take_line};
use crate::dues::Due;
use crate::ends::{RestartEnd, RestartFault};
use crate::pulling::{next_line, remaining, window_of};
use crate::sealing::is_sealed;
use crate::windows::Window;
use lift_core::System;
use outside::Folder;
use stage_store::{Stage, pairs_within};
use std::alloc::Global;

// The length of the last line.
const LAST: u64 = 72;

/// Two lines of bytes that are used anew with each line that is read.
#[derive(Drop)]
struct Lines {
    line: Vec<u8>,
    text: Vec<u8>,
}

// Reads line l, which is not the last.
fn read_line<F: Folder>(
    draft: &mut Draft,
    system: &System,
    l: u64,
    window: &mut Window,
    folder: &mut F,
    name: &str,
    lines: &mut Lines,
) -> Result<(), RestartEnd>
    requires widths { HasWidths system.now draft.old }
    requires sound { IsTrueSoFar system.now (cursor_of draft.old) }
    requires due { draft.old.due ≢ LastLine }
    ensures same { F.held folder.new ≡ F.held folder.old }
    ensures line { (text rest : List ℕ) → TellsText (F.held folder.old) name.now text
        → IsTextLeft text window.old rest →
        ReadsLine system.now text rest window.new (cursor_of draft.old)
        (cursor_of draft.new) l result }
    ensures widths { HasWidths system.now draft.new }
    ensures sound { OnOk result (IsTrueSoFar system.now (cursor_of draft.new)) }
    ensures cause { HasRestartCause (F.faults folder.old) (F.faults folder.new) result }
{
    if !next_line(window, folder, name, &mut lines.line)? {
        return Err(bad_text(l));
    }
    take_line(draft, system, l, &lines.line, &mut lines.text)
}

// The draft, where the last line alone is left, in line l, and the used pairs are enough.
fn ended(draft: Draft, system: &System, l: u64, left: u64) -> Result<Draft, RestartEnd>
    requires sound { IsTrueSoFar system.now (cursor_of draft) }
    requires widths { HasWidths system.now draft }
    ensures to { (bytes : List ℕ) → left ≡ length bytes → (draft.due ≢ LastLine → bytes ≡ []) →
        ReadsTo system.now (cursor_of draft) l bytes result }
    ensures whole { IfOk result (λ d. IsAllRead system.now d) }
    ensures never { result ≢ Err Failed }
{
    let _ = system.count();
    if draft.due != Due::LastLine {
        return Err(bad_text(l));
    }
    if left != LAST {
        return Err(bad_text(l));
    }
    if draft.used < pairs_within(&draft.listed, draft.norm) {
        return Err(RestartEnd::Bad(RestartFault::Used));
    }
    Ok(draft)
}

// What the lines of a file of so many bytes say.
fn read_lines<F: Folder>(
    alloc: Global,
    system: &System,
    folder: &mut F,
    name: &str,
    size: u64,
) -> Result<Draft, RestartEnd>
    requires { size < 2 ^ 61 }
    ensures same { F.held folder.new ≡ F.held folder.old }
    ensures to { (text : List ℕ) → TellsText (F.held folder.old) name.now text
        → size ≡ length text → ReadsTo system.now start 1 text result }
    ensures whole { IfOk result (λ d. IsAllRead system.now d) }
    ensures cause { HasRestartCause (F.faults folder.old) (F.faults folder.new) result }
{
    let mut window = window_of(alloc, size)?;
    let mut draft = empty_draft(alloc, system);
    let mut lines = Lines {
        line: Vec::new(alloc),
        text: Vec::new(alloc),
    };
    let mut l = 1u64;
    for _turn in 0..size {
        if draft.due == Due::LastLine {
            break;
        }
        read_line(&mut draft, system, l, &mut window, folder, name, &mut lines)?;
        l += 1;
    }
    ended(draft, system, l, remaining(&window))
}

// The stage of what was read.
fn stage_of(alloc: Global, system: &System, draft: Draft) -> Result<Stage, RestartEnd>
    requires { IsAllRead system.now draft }
    ensures { Builds system.now draft result }
{
    let system = system.copy(alloc)?;
    let stage = Stage::rebuild(
        alloc,
        system,
        draft.number,
        draft.norm,
        draft.used,
        draft.listed,
        draft.waiting,
    )?;
    Ok(stage)
}

/// The stage of the system that stands in the restart file.
///
/// The file is read twice, first for its digest and then line by line. Both versions of the text are read.
///
/// # Errors
/// `Bad` with the file's first fault, `Failed` where the folder failed, and `Memory` where memory ran out.
pub fn read_restart<F: Folder>(
    alloc: Global,
    system: &System,
    folder: &mut F,
    name: &str,
) -> Result<Stage, RestartEnd>
    ensures found { IfSome (F.held folder.old)
        (λ files. Restores system.now (get files name.now) result) }
    ensures same { F.held folder.new ≡ F.held folder.old }
    ensures cause { HasRestartCause (F.faults folder.old) (F.faults folder.new) result }
{
    let Some(size) = folder.size(name)? else {
        return Err(RestartEnd::Bad(RestartFault::Missing));
    };
    if !is_sealed(alloc, folder, name, size)? {
        return Err(RestartEnd::Bad(RestartFault::Digest));
    }
    let draft = read_lines(alloc, system, folder, name, size)?;
    stage_of(alloc, system, draft)
}
