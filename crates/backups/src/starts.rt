//! Where a run starts: from nothing, or from the stage of a restart file.

ghost use Rattle.std.specs.Prelude.{◌≡◌, Err, IfOk, IfSome};
ghost use Rattle.std.specs.FinMap.{get};
ghost use Rattle.lift_core.specs.Systems.{ToolSystem};
ghost use Rattle.backups.specs.Starts.{Stored, stored_in, is_later, Resumes, FindsStart, HasStartCause, first_slot, other_slot, slot_name};
ghost use Rattle.backups.specs.Inside.Contents.{IsContent};

use lift_core::System;
use outside::Folder;
use restart_file::{RestartEnd, RestartFault, read_restart};
use stage_store::Stage;
use std::alloc::Global;

/// One of the two restart files of a project.
#[derive(Clone, Copy, Debug, PartialEq, Eq)]
pub enum Slot {
    /// `.ckp0`
    First,
    /// `.ckp1`
    Second,
}

impl Slot {
    /// The other file.
    pub fn other(self) -> Slot
        ensures { result ≡ other_slot self }
    {
        match self {
            Slot::First => Slot::Second,
            Slot::Second => Slot::First,
        }
    }

    // The name of the file, of those of both.
    pub(crate) fn name<'a>(self, first: &'a str, second: &'a str) -> &'a str
        ensures { result.now ≡ slot_name self first.entry.now second.entry.now }
    {
        match self {
            Slot::First => first,
            Slot::Second => second,
        }
    }
}

/// Where a run starts.
#[derive(Drop)]
pub enum Start {
    /// From nothing.
    Fresh(System),
    /// From the stage of the restart file that was taken.
    Resumed(Stage, Slot),
}

impl Start {
    /// The file that the first backup goes to: the one that was not taken.
    pub fn first_slot(&self) -> Slot
        ensures { result ≡ first_slot self.now }
    {
        match self {
            Start::Fresh(_) => Slot::First,
            Start::Resumed(_, taken) => taken.other(),
        }
    }
}

/// Why a run does not start from a restart file.
#[derive(Clone, Copy, Debug, PartialEq, Eq)]
pub enum StartEnd {
    /// Neither file is accepted; these are the first faults of both.
    Refused(RestartFault, RestartFault),
    /// The folder failed at this file.
    Failed(Slot),
    /// Memory ran out.
    Memory,
}

// What was found in a restart file: a stage, or a fault.
#[derive(Drop)]
enum Content {
    Accepted(Stage),
    Faulty(RestartFault),
}

// Looks into one of the files.
fn look_into<F: Folder>(
    alloc: Global,
    folder: &mut F,
    system: &System,
    name: &str,
    slot: Slot,
) -> Result<Content, StartEnd>
    ensures found { IfSome (F.held folder.old)
        (λ files. IfOk result (IsContent system.now (get files name.now))) }
    ensures same { F.held folder.new ≡ F.held folder.old }
    ensures sure { (f g : RestartFault) → result ≡ Err (StartEnd.Refused f g) → ⊥ }
    ensures cause { HasStartCause (F.faults folder.old) (F.faults folder.new) result }
{
    match read_restart(alloc, system, folder, name) {
        Ok(stage) => Ok(Content::Accepted(stage)),
        Err(RestartEnd::Bad(fault)) => Ok(Content::Faulty(fault)),
        Err(RestartEnd::Failed) => Err(StartEnd::Failed(slot)),
        Err(RestartEnd::Memory) => Err(StartEnd::Memory),
    }
}

// Whether the stage's place is later than that of the other.
fn is_later(stage: &Stage, other: &Stage) -> bool
    ensures { result ≡ is_later stage.now other.now }
{
    other.number() < stage.number()
        || (other.number() == stage.number() && other.norm() < stage.norm())
}

// The start where the first file is accepted.
fn later_of(first: Stage, second: Content) -> Start
    ensures { (S : ToolSystem) (files : Stored) → IsContent S files.first (Content.Accepted first)
        → IsContent S files.second second → Resumes S files result }
{
    match second {
        Content::Accepted(second) => {
            if is_later(&second, &first) {
                Start::Resumed(second, Slot::Second)
            } else {
                Start::Resumed(first, Slot::First)
            }
        }
        Content::Faulty(_) => Start::Resumed(first, Slot::First),
    }
}

// The start where the first file has a fault.
fn second_or(fault: RestartFault, second: Content) -> Result<Start, StartEnd>
    ensures finds { (S : ToolSystem) (files : Stored)
        → IsContent S files.first (Content.Faulty fault)
        → IsContent S files.second second → FindsStart S files result }
    ensures calm { (slot : Slot) → result ≡ Err (StartEnd.Failed slot) → ⊥ }
{
    match second {
        Content::Accepted(second) => Ok(Start::Resumed(second, Slot::Second)),
        Content::Faulty(other) => Err(StartEnd::Refused(fault, other)),
    }
}

// The start from what both files hold.
fn choose(first: Content, second: Content) -> Result<Start, StartEnd>
    ensures finds { (S : ToolSystem) (files : Stored) → IsContent S files.first first
        → IsContent S files.second second → FindsStart S files result }
    ensures calm { (slot : Slot) → result ≡ Err (StartEnd.Failed slot) → ⊥ }
{
    match first {
        Content::Accepted(first) => Ok(later_of(first, second)),
        Content::Faulty(fault) => second_or(fault, second),
    }
}

/// The start of a run that is resumed: the stage of the restart file `first` or `second`, of two accepted ones the one with
/// the later place, and `first` where both places are the same. The folder stays as it is.
///
/// # Errors
/// `Refused` where neither file is accepted for the system, `Failed` where the folder failed, and `Memory` where memory ran
/// out.
pub fn read_start<F: Folder>(
    alloc: Global,
    folder: &mut F,
    system: &System,
    first: &str,
    second: &str,
) -> Result<Start, StartEnd>
    ensures found { IfSome (F.held folder.old)
        (λ files. FindsStart system.now (stored_in first.now second.now files) result) }
    ensures same { F.held folder.new ≡ F.held folder.old }
    ensures cause { HasStartCause (F.faults folder.old) (F.faults folder.new) result }
{
    let one = look_into(alloc, folder, system, first, Slot::First)?;
    let two = look_into(alloc, folder, system, second, Slot::Second)?;
    choose(one, two)
}
