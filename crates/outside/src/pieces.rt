//! Putting a text piece by piece.

ghost use Rattle.std.specs.Prelude.{◌≡◌, OnOk, OnErr};
ghost use Rattle.std.specs.Io.KnownBytes.{append_known};
ghost use Rattle.outside.specs.Causes.{HasCause};
ghost use Rattle.outside.specs.Pieces.{MayPut, text_of_pieces};

use crate::{PutEnd, Sink};

/// Puts the pieces one after another. It takes no memory of its own. After a refusal a prefix of their text was put.
pub fn put_pieces<S: Sink>(sink: &mut S, pieces: &[&[u8]]) -> Result<(), PutEnd>
    ensures done { OnOk result
        (S.held sink.new ≡ append_known (S.held sink.old) (text_of_pieces pieces.now)) }
    ensures refused { OnErr result
        (MayPut (text_of_pieces pieces.now) (S.held sink.old) (S.held sink.new)) }
    ensures cause { HasCause (S.faults sink.old) (S.faults sink.new) result }
{
    for piece in pieces {
        sink.put(piece)?;
    }
    Ok(())
}
