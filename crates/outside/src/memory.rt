//! A folder and a sink in memory that fail at listed calls.

ghost use Rattle.std.specs.Prelude.{◌≡◌, ◌≢◌, ◌≤◌, ◌+◌, ◌-◌, ◌^◌, ◌/◌, ◌↔◌, ℕ, List, [], ◌++◌, length, take, min, Contains, IsTrue, IsErr, IfOk, OnOk, OnErr, Some};
ghost use Rattle.std.specs.FinMap.{empty, get, insert};
ghost use Rattle.std.specs.Option.{option_map};
ghost use Rattle.std.specs.Io.{ReadsAtMost};
ghost use Rattle.outside.specs.Causes.{Rose, HasCause};
ghost use Rattle.outside.specs.Files.{bytes_of, begun, appended, ReadsFrom};
ghost use Rattle.outside.specs.CountedCalls.{CallCount, FailsNext, one_more_call, no_call_yet, half};

use crate::{Folder, PutEnd, Sink, SureFolder, SureSink};
use std::alloc::{AllocError, Global};
use std::marker::Model;

// The numbers of the calls that fail, and how many calls and failures there were.
#[derive(Drop)]
pub(crate) struct Schedule {
    fail: Vec<u64>,
    calls: u64,
    faults: u64,
}

impl Model for Schedule {
    ghost use Rattle.outside.specs.CountedCalls.{CallCount};

    ghost Value = { CallCount };

    ghost view = { λ s. record { fail = s.fail.items; calls = s.calls; faults = s.faults } };
}

impl Schedule {
    // No call yet.
    fn new(fail: Vec<u64>) -> Schedule
        ensures { result ≡ no_call_yet fail.items }
    {
        Schedule {
            fail,
            calls: 0,
            faults: 0,
        }
    }

    // Counts a call, and says whether it fails.
    fn next(&mut self) -> bool
        ensures next { self.new ≡ one_more_call self.old }
        ensures fails { IsTrue result ↔ FailsNext self.old }
        ensures later { self.old.faults ≤ self.new.faults }
        ensures rose { IsTrue result → Rose self.old.faults self.new.faults }
    {
        self.calls = self.calls.saturating_add(1);
        let fails = self.fail.contains(&self.calls);
        if fails {
            self.faults = self.faults.saturating_add(1);
        }
        fails
    }
}

/// A folder in memory whose calls of `Folder` are counted from 1, and of which the listed ones fail. A
/// clause sees its files, and the count of its calls.
#[derive(Drop)]
pub struct MemFolder {
    files: SureFolder,
    schedule: Schedule,
}

impl Model for MemFolder {
    ghost use Rattle.outside.specs.CountedCalls.{CountedFiles, counted_files_code};

    ghost Value = { CountedFiles };

    ghost coded = { counted_files_code };

    ghost view = { λ m. record { files = m.files; count = m.schedule } };
}

impl MemFolder {
    /// A folder without files, whose calls of these numbers fail. It takes no memory.
    pub fn new(alloc: Global, fail: Vec<u64>) -> MemFolder
        ensures { result ≡ record { files = empty; count = no_call_yet fail.items } }
    {
        MemFolder {
            files: SureFolder::new(alloc),
            schedule: Schedule::new(fail),
        }
    }

    /// Leaves the file of this name with these bytes, and all others as before. After a refusal all
    /// files are as before. It is no counted call.
    pub fn insert(&mut self, name: &str, bytes: &[u8]) -> Result<(), AllocError>
        ensures ok { OnOk result
            (self.new ≡ record self.old { files = insert self.old.files name.now bytes.now }) }
        ensures err { OnErr result (self.new ≡ self.old) }
    {
        self.files.insert(name, bytes)
    }

    /// The bytes of the file of this name, or `None` exactly where there is none. It takes no memory.
    pub fn file(&self, name: &str) -> Option<&[u8]>
        ensures { option_map (λ bytes. bytes.now) result ≡ get self.now.files name.now }
    {
        self.files.file(name)
    }

    /// How many calls of `Folder` there were. The number stops at 2^64-1.
    pub fn calls(&self) -> u64
        ensures { result ≡ self.now.count.calls }
    {
        self.schedule.calls
    }
}

// Each call counts itself, and one whose number is listed counts a fault. `listed` and `unlisted` say
// together that `Failed` is answered exactly there.
#[tactic(auto, using(crate::proofs::Counts::sure_cause))]
impl Folder for MemFolder {
    ghost held = { λ m. Some m.files };

    ghost faults = { λ m. m.count.faults };

    /// As of every folder. It takes no memory, so only a listed call is refused.
    fn size(&mut self, name: &str) -> Result<Option<u64>, PutEnd>
        ensures same { self.new.files ≡ self.old.files }
        ensures size { IfOk result (λ n. n ≡ option_map length (get self.old.files name.now)) }
        ensures counted { self.new.count ≡ one_more_call self.old.count }
        ensures listed { FailsNext self.old.count → result ≡ Err PutEnd.Failed }
        ensures unlisted { OnErr result (FailsNext self.old.count) }
        ensures no_memory { result ≢ Err PutEnd.Memory }
        ensures cause { HasCause self.old.count.faults self.new.count.faults result }
    {
        if self.schedule.next() {
            return Err(PutEnd::Failed);
        }
        self.files.size(name)
    }

    /// As of every folder. It takes no memory, so only a listed call is refused.
    fn read(&mut self, name: &str, at: u64, buf: &mut [u8]) -> Result<usize, PutEnd>
        ensures same { self.new.files ≡ self.old.files }
        ensures bound { ReadsAtMost result buf.new }
        ensures bytes { IfOk result
            (λ n. ReadsFrom (bytes_of self.old.files name.now) at n buf.new) }
        ensures refused { OnErr result (buf.new ≡ buf.old) }
        ensures counted { self.new.count ≡ one_more_call self.old.count }
        ensures listed { FailsNext self.old.count → result ≡ Err PutEnd.Failed }
        ensures unlisted { OnErr result (FailsNext self.old.count) }
        ensures no_memory { result ≢ Err PutEnd.Memory }
        ensures cause { HasCause self.old.count.faults self.new.count.faults result }
    {
        if self.schedule.next() {
            return Err(PutEnd::Failed);
        }
        self.files.read(name, at, buf)
    }

    /// As of every folder. After a refusal the file is as before.
    fn begin(&mut self, name: &str) -> Result<(), PutEnd>
        ensures done { OnOk result (self.new.files ≡ begun name.now self.old.files) }
        ensures refused { OnErr result (self.new.files ≡ self.old.files) }
        ensures counted { self.new.count ≡ one_more_call self.old.count }
        ensures listed { FailsNext self.old.count → result ≡ Err PutEnd.Failed }
        ensures unlisted { result ≡ Err PutEnd.Failed → FailsNext self.old.count }
        ensures cause { HasCause self.old.count.faults self.new.count.faults result }
    {
        if self.schedule.next() {
            return Err(PutEnd::Failed);
        }
        self.files.begin(name)
    }

    /// As of every folder. After `Failed` the first half of the bytes was added, rounded down, and
    /// after `Memory` none. A listed call is refused.
    fn append(&mut self, name: &str, bytes: &[u8]) -> Result<(), PutEnd>
        ensures done { OnOk result (self.new.files ≡ appended name.now bytes.now self.old.files) }
        ensures half { result ≡ Err PutEnd.Failed
            → self.new.files ≡ appended name.now (half bytes.now) self.old.files }
        ensures none { result ≡ Err PutEnd.Memory → self.new.files ≡ self.old.files }
        ensures counted { self.new.count ≡ one_more_call self.old.count }
        ensures listed { FailsNext self.old.count → IsErr result }
        ensures unlisted { result ≡ Err PutEnd.Failed → FailsNext self.old.count }
        ensures cause { HasCause self.old.count.faults self.new.count.faults result }
    {
        if self.schedule.next() {
            self.files.append(name, &bytes[..bytes.len() / 2])?;
            return Err(PutEnd::Failed);
        }
        self.files.append(name, bytes)
    }
}

/// A sink in memory whose puts are counted from 1, and of which the listed ones fail. A clause sees its
/// bytes, and the count of its puts.
#[derive(Drop)]
pub struct MemSink {
    bytes: SureSink,
    schedule: Schedule,
}

impl Model for MemSink {
    ghost use Rattle.outside.specs.CountedCalls.{CountedBytes};

    ghost Value = { CountedBytes };

    ghost view = { λ m. record { bytes = m.bytes; count = m.schedule } };
}

impl MemSink {
    /// A sink without bytes, whose puts of these numbers fail. It takes no memory.
    pub fn new(alloc: Global, fail: Vec<u64>) -> MemSink
        ensures { result ≡ record { bytes = []; count = no_call_yet fail.items } }
    {
        MemSink {
            bytes: SureSink::new(alloc),
            schedule: Schedule::new(fail),
        }
    }

    /// The bytes so far.
    pub fn bytes(&self) -> &[u8]
        ensures { result.now ≡ self.now.bytes }
    {
        self.bytes.bytes()
    }
}

#[tactic(auto, using(crate::proofs::Counts::sure_cause))]
impl Sink for MemSink {
    ghost held = { λ m. Some m.bytes };

    ghost faults = { λ m. m.count.faults };

    /// As of every sink. After `Failed` the first half of the bytes was added, rounded down, and after
    /// `Memory` none. A listed call is refused.
    fn put(&mut self, bytes: &[u8]) -> Result<(), PutEnd>
        ensures done { OnOk result (self.new.bytes ≡ self.old.bytes ++ bytes.now) }
        ensures half { result ≡ Err PutEnd.Failed
            → self.new.bytes ≡ self.old.bytes ++ half bytes.now }
        ensures none { result ≡ Err PutEnd.Memory → self.new.bytes ≡ self.old.bytes }
        ensures counted { self.new.count ≡ one_more_call self.old.count }
        ensures listed { FailsNext self.old.count → IsErr result }
        ensures unlisted { result ≡ Err PutEnd.Failed → FailsNext self.old.count }
        ensures cause { HasCause self.old.count.faults self.new.count.faults result }
    {
        if self.schedule.next() {
            self.bytes.put(&bytes[..bytes.len() / 2])?;
            return Err(PutEnd::Failed);
        }
        self.bytes.put(bytes)
    }
}
