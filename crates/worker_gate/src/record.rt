//! What the thread of one worker is lent.

ghost use Rattle.std.specs.Prelude.{◌≡◌, false};

use norm_board::{Pass, Share};

/// A worker's pass and share, and whether it ran out of memory.
#[derive(Drop)]
pub(crate) struct Worker<'s> {
    pub(crate) pass: Pass,
    pub(crate) share: Share<'s>,
    pub(crate) failed: bool,
}

impl<'s> Worker<'s> {
    /// A worker that has not begun.
    pub(crate) fn new(pass: Pass, share: Share<'s>) -> Worker<'s>
        ensures { (result.pass ≡ pass) × (result.share ≡ share.entry) × (result.failed ≡ false) }
    {
        Worker {
            pass,
            share,
            failed: false,
        }
    }
}
