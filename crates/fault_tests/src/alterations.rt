//! A restart file that was altered: no proper prefix of it is accepted, nor the file with one byte raised.

use crate::runs::{folder_of, run};
use crate::texts::{FOURTH, TWO_EQUATIONS};
use lift_core::Tool;
use std::alloc::Global;
use std::test::Fail;
use std::thread::Threads;

// What a run comes to that is to go on from a file whose digest differs.
const REFUSED: &str =
    "2 BadRestart(Digest, Missing)\nhilbert: P.ckp0: digest differs; P.ckp1: no such file\n";

// Whether a run that is to go on from these bytes ends so.
fn is_refused<R: Threads + Sync>(rt: &R, alloc: Global, bytes: &[u8]) -> Result<bool, Fail> {
    let mut folder = folder_of(alloc, TWO_EQUATIONS, &[])?;
    folder.insert("P.ckp0", bytes)?;
    let end = run(rt, alloc, Tool::Hilbert, &["--resume", "P"], &mut folder)?;
    Ok(end.as_str() == REFUSED)
}

// The lengths of the proper prefixes of the text that are not refused.
fn prefixes_taken<R: Threads + Sync>(
    rt: &R,
    alloc: Global,
    text: &[u8],
) -> Result<Vec<usize>, Fail> {
    let mut taken = Vec::new(alloc);
    for length in 0..text.len() {
        if !is_refused(rt, alloc, &text[..length])? {
            taken.push(length)?;
        }
    }
    Ok(taken)
}

// The text with this byte raised by one, where 0 follows on 255.
fn raised(alloc: Global, text: &[u8], at: usize) -> Result<Vec<u8>, Fail> {
    let mut bytes = text.to_vec(alloc)?;
    if let Some(byte) = bytes.get_mut(at) {
        *byte = byte.wrapping_add(1);
    }
    Ok(bytes)
}

// The places of the text at which a raised byte is not refused.
fn raised_taken<R: Threads + Sync>(rt: &R, alloc: Global, text: &[u8]) -> Result<Vec<usize>, Fail> {
    let mut taken = Vec::new(alloc);
    for at in 0..text.len() {
        if !is_refused(rt, alloc, raised(alloc, text, at)?.as_slice())? {
            taken.push(at)?;
        }
    }
    Ok(taken)
}

#[test]
fn no_proper_prefix_is_accepted(rt: HostRuntime) -> Result<(), Fail> {
    let taken = prefixes_taken(&rt, rt.alloc(), FOURTH.1.as_bytes())?;
    assert!(rt; taken.is_empty(), "a prefix of {:?} bytes", taken.first());
    Ok(())
}

#[test]
fn no_raised_byte_is_accepted(rt: HostRuntime) -> Result<(), Fail> {
    let taken = raised_taken(&rt, rt.alloc(), FOURTH.1.as_bytes())?;
    assert!(rt; taken.is_empty(), "byte {:?}", taken.first());
    Ok(())
}
