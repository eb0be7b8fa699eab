//! What stands of a file that is read in pieces.

ghost use Rattle.std.specs.Prelude.{◌≤◌, length};

/// What was read of a file and not taken yet, the place of the next read, and how many bytes the file has from there on.
#[derive(Drop)]
pub(crate) struct Window {
    pub(crate) storage: Vec<u8>,
    pub(crate) filled: usize,
    pub(crate) from: usize,
    pub(crate) at: u64,
    pub(crate) left: u64,
    ghost inside: { (from ≤ filled) × (filled ≤ length storage.items) },
}
