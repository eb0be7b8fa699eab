//! The real folder and streams: the trusted edge, which tells no content.

ghost use Rattle.std.specs.Prelude.{None, length, ◌≤◌, ◌≡◌, OnErr};
ghost use Rattle.std.specs.Io.{ReadsAtMost};
ghost use Rattle.outside.specs.Causes.{Rose};

use crate::{Folder, PutEnd, Sink};
use std::fs::{File, OpenOptions};
use std::io::{ErrorKind, Read, Seek, SeekFrom, Write};
use std::marker::Model;
use std::rt::Files;
use std::{fs, io};

// The refusal for what the machine said. A failure is counted, and running out of memory is none.
fn counted(kind: ErrorKind, faults: &mut u64) -> PutEnd
    ensures later { faults.old ≤ faults.new }
    ensures failed { result ≡ PutEnd.Failed → Rose faults.old faults.new }
    ensures memory { result ≡ PutEnd.Memory → faults.new ≡ faults.old }
{
    if kind == ErrorKind::OutOfMemory {
        return PutEnd::Memory;
    }
    *faults = faults.saturating_add(1);
    PutEnd::Failed
}

// What a handle was opened for.
#[derive(Clone, Copy, PartialEq, Eq)]
enum Purpose {
    Reading,
    Appending,
}

// A file that a call left open for the next one.
#[derive(Drop)]
struct Kept<H> {
    name: String,
    purpose: Purpose,
    handle: H,
}

/// The files below the current folder, each named by its path from there.
///
/// The handle of the file that is being read or appended stays open between calls. A call for another
/// file, or of another kind, closes it, and so does a call that the machine refuses.
#[derive(Drop)]
pub struct DirFolder<'r, R: Files + AllocGlobal> {
    rt: &'r R,
    kept: Option<Kept<R::File>>,
    room: Vec<u8>,
    faults: u64,
}

impl<'r, R: Files + AllocGlobal> Model for DirFolder<'r, R> {
    ghost use Rattle.std.specs.Prelude.{ℕ};

    ghost Value = { ℕ };

    ghost view = { λ s. s.faults };
}

impl<'r, R: Files + AllocGlobal> DirFolder<'r, R> {
    /// The current folder, with no failure yet, which is what a clause sees of it. It takes no memory.
    pub fn new(rt: &'r R) -> DirFolder<'r, R>
        ensures { result ≡ 0 }
    {
        DirFolder {
            rt,
            kept: None,
            room: Vec::new(rt.alloc()),
            faults: 0,
        }
    }
}

// Opens the file for reading, or makes it where it is to be appended to and is not there.
fn open<R: Files + AllocGlobal>(rt: &R, name: &str, purpose: Purpose) -> io::Result<Kept<R::File>> {
    let mut options = OpenOptions::new();
    match purpose {
        Purpose::Reading => options.read(true),
        Purpose::Appending => options.append(true).create(true),
    };
    let name = String::from_str(rt.alloc(), name)?;
    let handle = options.open(rt, name.as_str())?;
    Ok(Kept {
        name,
        purpose,
        handle,
    })
}

// Leaves the file there and empty, and open for the appends that follow.
fn create<R: Files + AllocGlobal>(rt: &R, name: &str) -> io::Result<Kept<R::File>> {
    let name = String::from_str(rt.alloc(), name)?;
    let handle = File::create(rt, name.as_str())?;
    Ok(Kept {
        name,
        purpose: Purpose::Appending,
        handle,
    })
}

// The file that was kept where it is the one that is asked for, else that one opened. Nothing is kept
// from here on, so that a file at which the machine refuses a call is opened anew by the next.
fn take_or_open<R: Files + AllocGlobal>(
    rt: &R,
    kept: &mut Option<Kept<R::File>>,
    name: &str,
    purpose: Purpose,
) -> io::Result<Kept<R::File>> {
    match kept.take() {
        Some(file) if file.purpose == purpose && file.name.as_str() == name => Ok(file),
        _ => open(rt, name, purpose),
    }
}

// Some of the file's bytes from a place on. The machine reads into `room`, since `buf` stays as it was
// where the machine fails.
fn read_through<R: Files + AllocGlobal>(
    rt: &R,
    kept: &mut Option<Kept<R::File>>,
    name: &str,
    at: u64,
    room: &mut [u8],
    buf: &mut [u8],
) -> io::Result<usize>
    requires { length room.old ≡ length buf.old }
    ensures bound { ReadsAtMost result buf.new }
    ensures refused { OnErr result (buf.new ≡ buf.old) }
{
    let mut file = take_or_open(rt, kept, name, Purpose::Reading)?;
    file.handle.seek(SeekFrom::Start(at))?;
    let count = file.handle.read(room)?;
    *kept = Some(file);
    buf[..count].copy_from_slice(&room[..count]);
    Ok(count)
}

// Adds the bytes at the file's end. A write that takes nothing is a failure of `write_all`.
fn append_to<R: Files + AllocGlobal>(
    rt: &R,
    kept: &mut Option<Kept<R::File>>,
    name: &str,
    bytes: &[u8],
) -> io::Result<()> {
    let mut file = take_or_open(rt, kept, name, Purpose::Appending)?;
    file.handle.write_all(bytes)?;
    *kept = Some(file);
    Ok(())
}

impl<R: Files + AllocGlobal> Folder for DirFolder<'_, R> {
    ghost held = { λ _. None };

    ghost faults = { λ count. count };

    // A folder under this name is no file, and counts as a failure.
    fn size(&mut self, name: &str) -> Result<Option<u64>, PutEnd> {
        self.kept = None;
        match fs::metadata(self.rt, name) {
            Ok(data) if data.is_dir() => Err(counted(ErrorKind::IsADirectory, &mut self.faults)),
            Ok(data) => Ok(Some(data.len())),
            Err(e) if e.kind() == ErrorKind::NotFound => Ok(None),
            Err(e) => Err(counted(e.kind(), &mut self.faults)),
        }
    }

    fn read(&mut self, name: &str, at: u64, buf: &mut [u8]) -> Result<usize, PutEnd> {
        if self.room.len() < buf.len() {
            self.room.resize(buf.len(), 0)?;
        }
        let room = &mut self.room[..buf.len()];
        match read_through(self.rt, &mut self.kept, name, at, room, buf) {
            Ok(count) => Ok(count),
            Err(e) if e.kind() == ErrorKind::NotFound => Ok(0),
            Err(e) => Err(counted(e.kind(), &mut self.faults)),
        }
    }

    fn begin(&mut self, name: &str) -> Result<(), PutEnd> {
        self.kept = None;
        match create(self.rt, name) {
            Ok(file) => {
                self.kept = Some(file);
                Ok(())
            }
            Err(e) => Err(counted(e.kind(), &mut self.faults)),
        }
    }

    fn append(&mut self, name: &str, bytes: &[u8]) -> Result<(), PutEnd> {
        match append_to(self.rt, &mut self.kept, name, bytes) {
            Ok(()) => Ok(()),
            Err(e) => Err(counted(e.kind(), &mut self.faults)),
        }
    }
}

// Which of the two streams.
#[derive(Clone, Copy)]
enum Stream {
    Output,
    Errors,
}

/// Standard output or standard error.
#[derive(Drop)]
pub struct StdSink<'r> {
    rt: &'r HostRuntime,
    stream: Stream,
    faults: u64,
}

impl<'r> Model for StdSink<'r> {
    ghost use Rattle.std.specs.Prelude.{ℕ};

    ghost Value = { ℕ };

    ghost view = { λ s. s.faults };
}

impl<'r> StdSink<'r> {
    /// Standard output, with no failure yet, which is what a clause sees of it. It takes no memory.
    pub fn out(rt: &'r HostRuntime) -> StdSink<'r>
        ensures { result ≡ 0 }
    {
        StdSink {
            rt,
            stream: Stream::Output,
            faults: 0,
        }
    }

    /// Standard error, with no failure yet, which is what a clause sees of it. It takes no memory.
    pub fn err(rt: &'r HostRuntime) -> StdSink<'r>
        ensures { result ≡ 0 }
    {
        StdSink {
            rt,
            stream: Stream::Errors,
            faults: 0,
        }
    }
}

impl Sink for StdSink<'_> {
    ghost held = { λ _. None };

    ghost faults = { λ count. count };

    fn put(&mut self, bytes: &[u8]) -> Result<(), PutEnd> {
        let written = match self.stream {
            Stream::Output => Write::write_all(&mut self.rt.stdout(), bytes),
            Stream::Errors => Write::write_all(&mut self.rt.stderr(), bytes),
        };
        match written {
            Ok(()) => Ok(()),
            Err(e) => Err(counted(e.kind(), &mut self.faults)),
        }
    }
}
