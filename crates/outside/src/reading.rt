//! Reading a whole file of a folder.

ghost use Rattle.std.specs.Prelude.{◌≡◌, ◌≤◌, ◌<◌, ◌+◌, length, IfOk, IfSome, OnOk};
ghost use Rattle.std.specs.FinMap.{get};
ghost use Rattle.outside.specs.Files.{bytes_of};
ghost use Rattle.outside.specs.Causes.{HasCause};
ghost use Rattle.outside.specs.Reading.{ReadsFile, ReadsMore, HasReadCause, KeepsLimit};

use crate::{Folder, PutEnd, ReadEnd};
use std::alloc::Global;

// The most bytes that one call asks the folder for.
const PIECE: u64 = 65_536;

// Adds one more piece of the file, through `room`, and says whether there was one.
fn read_more<F: Folder>(
    folder: &mut F,
    name: &str,
    room: &mut [u8],
    bytes: &mut Vec<u8>,
) -> Result<bool, PutEnd>
    requires { 0 < length room.old }
    ensures same { F.held folder.new ≡ F.held folder.old }
    ensures more { IfSome (F.held folder.old)
        (λ files. IfOk result
        (ReadsMore (bytes_of files name.now) bytes.old.items bytes.new.items)) }
    ensures within { OnOk result
        (length bytes.new.items ≤ length bytes.old.items + length room.old) }
    ensures cause { HasCause (F.faults folder.old) (F.faults folder.new) result }
{
    let at = bytes.as_slice().len() as u64;
    let count = folder.read(name, at, room)?;
    if count == 0 {
        return Ok(false);
    }
    bytes.extend_from_slice(&room[..count])?;
    Ok(true)
}

// Reads the file, whose length is `len` where the folder tells it.
fn read_bytes<F: Folder>(
    alloc: Global,
    folder: &mut F,
    name: &str,
    len: u64,
) -> Result<Vec<u8>, PutEnd>
    ensures same { F.held folder.new ≡ F.held folder.old }
    ensures bytes { IfSome (F.held folder.old) (λ files. len ≡ length (bytes_of files name.now) →
        IfOk result (λ v. v.items ≡ bytes_of files name.now)) }
    ensures within { IfOk result (λ v. length v.items ≤ len) }
    ensures cause { HasCause (F.faults folder.old) (F.faults folder.new) result }
{
    let mut bytes = Vec::with_capacity(alloc, len as usize)?;
    let mut storage = vec![in alloc; 0u8; len.min(PIECE) as usize]?;
    let piece = storage.as_mut_slice();
    for _turn in 0..len {
        let rest = len.saturating_sub(bytes.as_slice().len() as u64);
        if rest == 0 {
            break;
        }
        let room = rest.min(piece.len() as u64) as usize;
        if !read_more(folder, name, &mut piece[..room], &mut bytes)? {
            break;
        }
    }
    Ok(bytes)
}

/// The bytes of the file, or `None` where there is no such file. A file that is longer than `limit`
/// bytes is not read. The folder is asked for its length once, and at most that many times for a piece.
pub fn read_all<F: Folder>(
    alloc: Global,
    folder: &mut F,
    name: &str,
    limit: u64,
) -> Result<Option<Vec<u8>>, ReadEnd>
    ensures same { F.held folder.new ≡ F.held folder.old }
    ensures found { IfSome (F.held folder.old)
        (λ files. ReadsFile limit (get files name.now) result) }
    ensures within { KeepsLimit limit result }
    ensures cause { HasReadCause (F.faults folder.old) (F.faults folder.new) result }
{
    let Some(len) = folder.size(name)? else {
        return Ok(None);
    };
    if len > limit {
        return Err(ReadEnd::TooLong { len });
    }
    let bytes = read_bytes(alloc, folder, name, len)?;
    Ok(Some(bytes))
}
