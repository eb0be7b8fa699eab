//! What a worker needs beside its book to work out a block.

ghost use Rattle.std.specs.Prelude.{◌≡◌, true, is_some, IfOk, OnOk};
ghost use Rattle.norm_board.specs.Inside.Fields.{HasLength};

use stage_store::Hints;
use std::alloc::{AllocError, Global};
use std::marker::Model;

/// Room for one sum, and what the worker remembers from block to block. It is seen as the length of that room.
#[derive(Drop)]
pub struct Scratch {
    pub(crate) sum: Vec<i64>,
    pub(crate) hints: Hints,
}

impl Model for Scratch {
    ghost use Rattle.std.specs.Prelude.{ℕ, length};

    ghost Value = { ℕ };

    ghost view = { λ s. length s.sum.items };
}

impl Scratch {
    /// Room for sums of this many entries.
    pub(crate) fn new(alloc: Global, width: u32) -> Result<Scratch, AllocError>
        ensures { IfOk result (λ scratch. scratch ≡ width) }
    {
        Ok(Scratch {
            sum: vec![in alloc; 0; width as usize]?,
            hints: Hints::new(alloc)?,
        })
    }
}

/// Makes the room for sums of this many entries, where it is not there yet.
pub(crate) fn make_scratch(
    alloc: Global,
    scratch: &mut Option<Scratch>,
    width: u32,
) -> Result<(), AllocError>
    requires { HasLength width scratch.old }
    ensures length { HasLength width scratch.new }
    ensures there { OnOk result (is_some scratch.new ≡ true) }
    ensures kept { is_some scratch.old ≡ true → is_some scratch.new ≡ true }
{
    if scratch.is_none() {
        *scratch = Some(Scratch::new(alloc, width)?);
    }
    Ok(())
}
