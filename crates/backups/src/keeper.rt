//! The Keep that writes backups.

ghost use Rattle.std.specs.Prelude.{◌≡◌, ◌≤◌, ◌∷◌, [], Option, Some};

use crate::Slot;
use lift_run::Keep;
use outside::{Folder, PutEnd, SureFolder, Words};
use restart_file::write_restart;
use stage_store::Stage;
use std::alloc::Global;

/// How the backups stand, as plain data. It is the state of a `Backup`, and is never made.
#[derive(Drop)]
pub struct BackupState {
    /// Which folder is lent, as the number of the borrow.
    pub lent: u64,
    /// The files, where the folder tells them.
    pub files: Option<SureFolder>,
    /// The names of both files, that of `.ckp0` first.
    pub names: Words,
    /// Which file is next.
    pub slot: Slot,
    /// A backup is written after every so many closed norms.
    pub interval: u32,
    /// How many norms are left to the next backup.
    pub left: u32,
}

/// Writes a restart file into the folder after every so many closed norms, under two names in turn. The slot alone says which
/// of them is next, so the file that is written and the one that is told are the same.
#[derive(Drop)]
pub struct Backup<'a, F> {
    alloc: Global,
    folder: &'a mut F,
    first: &'a str,
    second: &'a str,
    slot: Slot,
    interval: u32,
    left: u32,
}

impl<'a, F: Folder> Backup<'a, F> {
    /// No norm is closed yet. The first backup goes to the file of the slot, of the two with these names.
    pub fn new(
        alloc: Global,
        folder: &'a mut F,
        first: &'a str,
        second: &'a str,
        slot: Slot,
        interval: u32,
    ) -> Backup<'a, F>
        requires { 1 ≤ interval }
        ensures folder { result.folder.now ≡ folder.old }
        ensures same_reference { result.folder.ghost_name ≡ folder.entry.ghost_name }
        ensures names { (result.first.now ≡ first.now) × (result.second.now ≡ second.now) }
        ensures slot { result.slot ≡ slot }
        ensures interval { (result.interval ≡ interval) × (result.left ≡ interval) }
    {
        Backup {
            alloc,
            folder,
            first,
            second,
            slot,
            interval,
            left: interval,
        }
    }

    /// Which file the next backup goes to; after a refusal the one that was not written.
    pub fn next_slot(&self) -> Slot
        ensures { result ≡ self.now.slot }
    {
        self.slot
    }
}

impl<'a, F: Folder> Keep for Backup<'a, F> {
    type State = BackupState;

    ghost use Rattle.backups.specs.Backups.{after_norm, MayBackUp};

    ghost state = { λ b. Some (record {
      lent = b.folder.ghost_name;
      files = F.held b.folder.now;
      names = b.first.now ∷ b.second.now ∷ [];
      slot = b.slot;
      interval = b.interval;
      left = b.left;
    }) };

    ghost faults = { λ b. F.faults b.folder.now };

    ghost after = { λ s stage. after_norm s stage };

    ghost torn = { λ s stage t. MayBackUp s stage t };

    fn norm_closed(&mut self, stage: &Stage) -> Result<(), PutEnd> {
        if self.left > 1 {
            self.left -= 1;
            return Ok(());
        }
        let name = self.slot.name(self.first, self.second);
        write_restart(self.alloc, stage, self.folder, name)?;
        self.slot = self.slot.other();
        self.left = self.interval;
        Ok(())
    }
}
