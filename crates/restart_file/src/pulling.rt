//! The bytes and lines of a file, one after another, read in pieces.

ghost use Rattle.std.specs.Prelude.{◌≡◌, ◌≤◌, ◌<◌, ◌+◌, ◌-◌, ◌∷◌, [], ℕ, List, length, min, take, drop, IfOk, OnOk};
ghost use Rattle.outside.specs.Causes.{HasCause};
ghost use Rattle.outside.specs.Files.{ReadsFrom};
ghost use Rattle.restart_file.specs.Inside.Windows.{GivesByte, GivesLine, IsTextLeft, TellsText};

use crate::windows::Window;
use outside::{Folder, PutEnd};
use std::alloc::{AllocError, Global};

// The most bytes that one call asks the folder for.
const PIECE: u64 = 65_536;

// The most bytes of a line.
const LINE: u32 = 4_096;

// The start of a file of so many bytes.
pub(crate) fn window_of(alloc: Global, size: u64) -> Result<Window, AllocError>
    ensures { IfOk result (λ w. (text : List ℕ) → size ≡ length text → IsTextLeft text w text) }
{
    let storage = vec![in alloc; 0u8; size.min(PIECE) as usize]?;
    Ok(Window {
        storage,
        filled: 0,
        from: 0,
        at: 0,
        left: size,
    })
}

// How many bytes are left.
pub(crate) fn remaining(window: &Window) -> u64
    ensures { (text rest : List ℕ) → IsTextLeft text window.now rest → result ≡ length rest }
{
    ((window.filled - window.from) as u64).saturating_add(window.left)
}

// Reads bytes of the file from a place on, as many as the folder gives.
fn read_into<F: Folder>(
    storage: &mut Vec<u8>,
    folder: &mut F,
    name: &str,
    at: u64,
) -> Result<usize, PutEnd>
    ensures same { F.held folder.new ≡ F.held folder.old }
    ensures length { length storage.new.items ≡ length storage.old.items }
    ensures within { IfOk result (λ n. n ≤ length storage.new.items) }
    ensures bytes { (text : List ℕ) → TellsText (F.held folder.old) name.now text
        → IfOk result (λ n. ReadsFrom text at n storage.new.items) }
    ensures cause { HasCause (F.faults folder.old) (F.faults folder.new) result }
{
    folder.read(name, at, storage.as_mut_slice())
}

// Reads the next piece, where nothing is left of the last one.
pub(crate) fn refill<F: Folder>(
    window: &mut Window,
    folder: &mut F,
    name: &str,
) -> Result<(), PutEnd>
    ensures same { F.held folder.new ≡ F.held folder.old }
    ensures left { (text rest : List ℕ) → TellsText (F.held folder.old) name.now text
        → IsTextLeft text window.old rest →
        OnOk result (IsTextLeft text window.new rest
        × (window.new.from ≡ window.new.filled → rest ≡ [])) }
    ensures cause { HasCause (F.faults folder.old) (F.faults folder.new) result }
{
    if window.from < window.filled {
        return Ok(());
    }
    let count = read_into(&mut window.storage, folder, name, window.at)?;
    window.from = 0;
    window.filled = count;
    window.at = window.at.saturating_add(count as u64);
    window.left = window.left.saturating_sub(count as u64);
    Ok(())
}

// The next byte, where there is one.
fn next_byte<F: Folder>(
    window: &mut Window,
    folder: &mut F,
    name: &str,
) -> Result<Option<u8>, PutEnd>
    ensures same { F.held folder.new ≡ F.held folder.old }
    ensures byte { (text rest : List ℕ) → TellsText (F.held folder.old) name.now text
        → IsTextLeft text window.old rest →
        IfOk result (λ o. GivesByte text window.new rest o) }
    ensures cause { HasCause (F.faults folder.old) (F.faults folder.new) result }
{
    refill(window, folder, name)?;
    if window.from >= window.filled {
        return Ok(None);
    }
    let byte = window.storage.as_slice()[window.from];
    window.from += 1;
    Ok(Some(byte))
}

// Whether the next line is whole and not too long; then these are its bytes.
pub(crate) fn next_line<F: Folder>(
    window: &mut Window,
    folder: &mut F,
    name: &str,
    line: &mut Vec<u8>,
) -> Result<bool, PutEnd>
    ensures same { F.held folder.new ≡ F.held folder.old }
    ensures line { (text rest : List ℕ) → TellsText (F.held folder.old) name.now text
        → IsTextLeft text window.old rest →
        IfOk result (λ is. GivesLine text window.new rest line.new.items is) }
    ensures cause { HasCause (F.faults folder.old) (F.faults folder.new) result }
{
    line.clear();
    for _i in 0..LINE {
        let Some(byte) = next_byte(window, folder, name)? else {
            return Ok(false);
        };
        line.extend_from_slice(&[byte])?;
        if byte == b'\n' {
            return Ok(true);
        }
    }
    Ok(false)
}

// Takes so many bytes, or all that are left where they are fewer.
pub(crate) fn next_bytes<F: Folder>(
    window: &mut Window,
    folder: &mut F,
    name: &str,
    len: u32,
    bytes: &mut Vec<u8>,
) -> Result<(), PutEnd>
    ensures same { F.held folder.new ≡ F.held folder.old }
    ensures bytes { (text rest : List ℕ) → TellsText (F.held folder.old) name.now text
        → IsTextLeft text window.old rest →
        OnOk result (bytes.new.items ≡ take len rest) }
    ensures cause { HasCause (F.faults folder.old) (F.faults folder.new) result }
{
    bytes.clear();
    for _i in 0..len {
        let Some(byte) = next_byte(window, folder, name)? else {
            return Ok(());
        };
        bytes.extend_from_slice(&[byte])?;
    }
    Ok(())
}
