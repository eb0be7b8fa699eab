//! Whether the last line of a file has the digest of all bytes before it.

ghost use Rattle.std.specs.Prelude.{◌≡◌, ◌≤◌, ◌<◌, ◌+◌, ◌↔◌, ◌⊎◌, ◌++◌, ◌^◌, ℕ, List, length, take, drop, IsTrue, IfOk};
ghost use Rattle.sha2.specs.Hashers.{Holds256};
ghost use Rattle.sha2.specs.Sha256.{sha256};
ghost use Rattle.outside.specs.Causes.{HasCause};
ghost use Rattle.restart_file.specs.Reading.{IsSealed};
ghost use Rattle.restart_file.specs.Inside.Windows.{IsHashed, IsTextLeft, TellsText};

use crate::lines::push_digest;
use crate::pulling::{next_bytes, refill, window_of};
use crate::windows::Window;
use outside::{Folder, PutEnd};
use sha2::{Digest, Sha256};
use std::alloc::Global;

// The length of the last line.
const LAST: u64 = 72;

// The least length that has no digest.
const TOO_LONG: u64 = 2_305_843_009_213_693_952;

// Hashes so many bytes from a place on.
fn hash_bytes(hasher: &mut Sha256, bytes: &[u8], from: usize, count: usize)
    requires { from + count ≤ length bytes.now }
    ensures { (m : List ℕ) → Holds256 hasher.old m
        → Holds256 hasher.new (m ++ take count (drop from bytes.now)) }
{
    hasher.update(&bytes[from..from + count]);
}

// Hashes some of the bytes that are left, at most so many, and gives their number.
fn hash_piece<F: Folder>(
    window: &mut Window,
    folder: &mut F,
    name: &str,
    hasher: &mut Sha256,
    most: u64,
) -> Result<u64, PutEnd>
    ensures same { F.held folder.new ≡ F.held folder.old }
    ensures within { IfOk result (λ n. n ≤ most) }
    ensures hashed { (text : List ℕ) (done : ℕ) → TellsText (F.held folder.old) name.now text
        → IsHashed text window.old hasher.old done →
        IfOk result (λ n. IsHashed text window.new hasher.new (done + n)
        × (n ≡ 0 → length text ≤ done ⊎ most ≡ 0)) }
    ensures cause { HasCause (F.faults folder.old) (F.faults folder.new) result }
{
    refill(window, folder, name)?;
    let count = (window.filled - window.from).min(most as usize);
    hash_bytes(hasher, window.storage.as_slice(), window.from, count);
    window.from += count;
    Ok(count as u64)
}

// The digest of the first bytes of the file, so many of them.
fn digest_of<F: Folder>(
    window: &mut Window,
    folder: &mut F,
    name: &str,
    len: u64,
) -> Result<[u8; 32], PutEnd>
    ensures same { F.held folder.new ≡ F.held folder.old }
    ensures digest { (text : List ℕ) → TellsText (F.held folder.old) name.now text
        → IsTextLeft text window.old text → len ≤ length text →
        IfOk result (λ digest. (digest ≡ sha256 (take len text))
        × IsTextLeft text window.new (drop len text)) }
    ensures cause { HasCause (F.faults folder.old) (F.faults folder.new) result }
{
    let mut hasher = Sha256::new();
    let mut left = len;
    for _turn in 0..len {
        let count = hash_piece(window, folder, name, &mut hasher, left)?;
        if count == 0 {
            return Ok(hasher.finalize());
        }
        left -= count;
    }
    Ok(hasher.finalize())
}

// Whether both texts are the same.
fn is_same(text: &[u8], other: &[u8]) -> bool
    ensures { IsTrue result ↔ (text.now ≡ other.now) }
{
    text == other
}

// Whether the last line of a file of so many bytes has the digest of all bytes before it.
pub(crate) fn is_sealed<F: Folder>(
    alloc: Global,
    folder: &mut F,
    name: &str,
    size: u64,
) -> Result<bool, PutEnd>
    ensures same { F.held folder.new ≡ F.held folder.old }
    ensures sealed { (text : List ℕ) → TellsText (F.held folder.old) name.now text
        → size ≡ length text →
        IfOk result (λ is. IsTrue is ↔ IsSealed text) }
    ensures short { IfOk result (λ is. IsTrue is → size < 2 ^ 61) }
    ensures cause { HasCause (F.faults folder.old) (F.faults folder.new) result }
{
    if size < LAST {
        return Ok(false);
    }
    if size >= TOO_LONG {
        return Ok(false);
    }
    let mut window = window_of(alloc, size)?;
    let digest = digest_of(&mut window, folder, name, size - LAST)?;
    let mut line = Vec::new(alloc);
    next_bytes(&mut window, folder, name, LAST as u32, &mut line)?;
    let mut wanted = Vec::new(alloc);
    push_digest(&mut wanted, &digest)?;
    Ok(is_same(&line, &wanted))
}
