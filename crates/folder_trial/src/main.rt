//! Drives the real folder and the folder in memory by the same sequences of calls, drawn with a fixed seed, and says whether
//! they ever answered something different, or held something different after a sequence.
#![tactic(auto)]

use outside::{DirFolder, Folder, MemFolder, PutEnd, Sink, StdSink};
use std::fs;
use std::io::ErrorKind;
use std::process::ExitCode;

const SEQUENCES: u32 = 2_000;

const CALLS: u32 = 12;

const NAMES: [&str; 5] = ["a", "b.txt", "c.mat", "d.ckp0", "e"];

const TEXT: &[u8] = b"0 1 -2 9223372036854775807\nrow\r\n\x00\xff a line that is not ended, 64";

/// Draws numbers, each from the one before (Marsaglia 2003, xorshift).
#[derive(Drop)]
struct Draw {
    state: u64,
}

impl Draw {
    // A number below n; 0 where n is 0.
    fn below(&mut self, n: u32) -> u32 {
        self.state ^= self.state << 13;
        self.state ^= self.state >> 7;
        self.state ^= self.state << 17;
        ((self.state >> 32) as u32).checked_rem(n).unwrap_or(0)
    }

    // A name of the handful.
    fn name(&mut self) -> &'static str {
        NAMES.get(self.below(5) as usize).copied().unwrap_or("a")
    }

    // A piece of the text.
    fn piece(&mut self) -> &'static [u8] {
        let from = self.below(64) as usize;
        let count = self.below(64) as usize;
        let rest = TEXT.get(from..).unwrap_or(&[]);
        rest.get(..count).unwrap_or(rest)
    }
}

// Whether both give the same bytes from a place on.
fn read_alike<A: Folder, B: Folder>(
    real: &mut A,
    memory: &mut B,
    name: &str,
    at: u64,
    room: usize,
) -> Result<bool, PutEnd> {
    let mut first = [7u8; 32];
    let mut second = [7u8; 32];
    let room = room.min(32);
    let counts = (
        real.read(name, at, &mut first[..room])?,
        memory.read(name, at, &mut second[..room])?,
    );
    Ok(counts.0 == counts.1 && first == second)
}

// Makes one call on both, and says whether they answer alike.
fn call<A: Folder, B: Folder>(
    real: &mut A,
    memory: &mut B,
    draw: &mut Draw,
) -> Result<bool, PutEnd> {
    let name = draw.name();
    match draw.below(8) {
        0 => Ok(real.size(name)? == memory.size(name)?),
        1 | 2 => {
            let at = u64::from(draw.below(200));
            read_alike(real, memory, name, at, draw.below(33) as usize)
        }
        3 => {
            real.begin(name)?;
            memory.begin(name)?;
            Ok(true)
        }
        _ => {
            let piece = draw.piece();
            real.append(name, piece)?;
            memory.append(name, piece)?;
            Ok(true)
        }
    }
}

// Whether both hold the same bytes under a name.
fn holds_alike<A: Folder, B: Folder>(
    real: &mut A,
    memory: &mut B,
    name: &str,
) -> Result<bool, PutEnd> {
    let size = real.size(name)?;
    if size != memory.size(name)? {
        return Ok(false);
    }
    for piece in 0..=size.unwrap_or(0) / 32 {
        if !read_alike(real, memory, name, piece.saturating_mul(32), 32)? {
            return Ok(false);
        }
    }
    Ok(true)
}

// Whether both hold the same bytes under each name.
fn hold_alike<A: Folder, B: Folder>(real: &mut A, memory: &mut B) -> Result<bool, PutEnd> {
    for name in NAMES {
        if !holds_alike(real, memory, name)? {
            return Ok(false);
        }
    }
    Ok(true)
}

// Makes one sequence of calls on both, and says whether they answer and then hold alike. What they hold is asked for behind
// the last call alone, since to ask is a call that lets go the handle that the real folder keeps between calls.
fn sequence<A: Folder, B: Folder>(
    real: &mut A,
    memory: &mut B,
    draw: &mut Draw,
) -> Result<bool, PutEnd> {
    for _ in 0..CALLS {
        if !call(real, memory, draw)? {
            return Ok(false);
        }
    }
    hold_alike(real, memory)
}

// Removes the real files.
fn remove_files(rt: &HostRuntime) -> Result<(), PutEnd> {
    for name in NAMES {
        match fs::remove_file(rt, name) {
            Ok(()) => {}
            Err(e) if e.kind() == ErrorKind::NotFound => {}
            Err(_) => return Err(PutEnd::Failed),
        }
    }
    Ok(())
}

// Makes all sequences, each with a real folder that has opened no file yet. One in four begins without files.
fn sequences(rt: &HostRuntime) -> Result<bool, PutEnd> {
    let mut memory = MemFolder::new(rt.alloc(), Vec::new(rt.alloc()));
    let mut draw = Draw { state: 20_031_127 };
    for _ in 0..SEQUENCES {
        if draw.below(4) == 0 {
            remove_files(rt)?;
            memory = MemFolder::new(rt.alloc(), Vec::new(rt.alloc()));
        }
        if !sequence(&mut DirFolder::new(rt), &mut memory, &mut draw)? {
            return Ok(false);
        }
    }
    remove_files(rt)?;
    Ok(true)
}

fn main(rt: HostRuntime) -> ExitCode {
    let (line, code): (&[u8], u8) = match sequences(&rt) {
        Ok(true) => (b"2000 sequences of 12 calls: no difference\n", 0),
        Ok(false) => (b"the folders differ\n", 1),
        Err(_) => (b"a call was refused\n", 1),
    };
    match StdSink::out(&rt).put(line) {
        Ok(()) => ExitCode::from(code),
        Err(_) => ExitCode::from(5),
    }
}
