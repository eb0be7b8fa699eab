//! A folder and a sink in memory that never fail. They may run out of memory.

ghost use Rattle.std.specs.Prelude.{◌≡◌, ◌≤◌, ◌++◌, [], length, MatchOption, IsOk, IfOk, IfErr, OnOk, OnErr, Ok, Some};
ghost use Rattle.std.specs.FinMap.{empty, find, get, insert};
ghost use Rattle.std.specs.Option.{option_map};
ghost use Rattle.std.specs.Io.{ReadsAtMost};
ghost use Rattle.outside.specs.Causes.{HasCause};
ghost use Rattle.outside.specs.Files.{name_cmp, bytes_of, begun, appended, ReadsFrom};
ghost use Rattle.outside.specs.FileLists.{entries_of, files_of, IsFirstAt};

use crate::{Folder, PutEnd, Sink};
use std::alloc::{AllocError, Global};
use std::marker::Model;

// A file in memory.
#[derive(Drop)]
pub(crate) struct NamedFile {
    name: String,
    bytes: Vec<u8>,
}

/// Files in memory, which never fail. A clause sees the map from the names to the bytes.
#[derive(Drop)]
pub struct SureFolder {
    alloc: Global,
    files: Vec<NamedFile>,
}

impl Model for SureFolder {
    ghost use Rattle.outside.specs.Files.{Files};
    ghost use Rattle.outside.specs.FileLists.{files_of, files_code};

    ghost Value = { Files };

    ghost coded = { files_code };

    ghost view = { λ s. files_of s.files.items };
}

// The place of the file of this name.
fn place_of(files: &[NamedFile], name: &str) -> Option<usize>
    ensures { MatchOption result (find name_cmp name.now (entries_of files.now) ≡ None)
        (IsFirstAt name.now (entries_of files.now)) }
{
    for (i, file) in files.iter().enumerate() {
        if file.name.as_str() == name {
            return Some(i);
        }
    }
    None
}

// Gives the file of this name these bytes, in place of those that it has.
fn put_file(
    alloc: Global,
    files: &mut Vec<NamedFile>,
    name: &str,
    bytes: Vec<u8>,
) -> Result<(), AllocError>
    ensures ok { OnOk result
        (files_of files.new.items ≡ insert (files_of files.old.items) name.now bytes.items) }
    ensures err { OnErr result (files_of files.new.items ≡ files_of files.old.items) }
{
    match place_of(files, name) {
        Some(i) => {
            let file = &mut files[i];
            file.bytes = bytes;
        }
        None => {
            let name = String::from_str(alloc, name)?;
            files.push(NamedFile { name, bytes })?;
        }
    }
    Ok(())
}

// Adds bytes to the file of this name, where one that is not there counts as empty.
fn extend_file(
    alloc: Global,
    files: &mut Vec<NamedFile>,
    name: &str,
    bytes: &[u8],
) -> Result<(), AllocError>
    ensures ok { OnOk result
        (files_of files.new.items ≡ appended name.now bytes.now (files_of files.old.items)) }
    ensures err { OnErr result (files_of files.new.items ≡ files_of files.old.items) }
{
    match place_of(files, name) {
        Some(i) => {
            let file = &mut files[i];
            file.bytes.extend_from_slice(bytes)?;
        }
        None => {
            let bytes = Vec::from_slice(alloc, bytes)?;
            let name = String::from_str(alloc, name)?;
            files.push(NamedFile { name, bytes })?;
        }
    }
    Ok(())
}

impl SureFolder {
    /// A folder without files. It takes no memory.
    pub fn new(alloc: Global) -> SureFolder
        ensures { result ≡ empty }
    {
        SureFolder {
            alloc,
            files: Vec::new(alloc),
        }
    }

    /// Leaves the file of this name with these bytes, and all others as before. After a refusal all
    /// files are as before.
    pub fn insert(&mut self, name: &str, bytes: &[u8]) -> Result<(), AllocError>
        ensures ok { OnOk result (self.new ≡ insert self.old name.now bytes.now) }
        ensures err { OnErr result (self.new ≡ self.old) }
    {
        let bytes = Vec::from_slice(self.alloc, bytes)?;
        put_file(self.alloc, &mut self.files, name, bytes)
    }

    /// The bytes of the file of this name, or `None` exactly where there is none. It takes no memory.
    pub fn file(&self, name: &str) -> Option<&[u8]>
        ensures { option_map (λ bytes. bytes.now) result ≡ get self.now name.now }
    {
        match place_of(&self.files, name) {
            Some(i) => Some(self.files[i].bytes.as_slice()),
            None => None,
        }
    }

    // Adds bytes to the file of this name, where one that is not there counts as empty.
    pub(crate) fn extend(&mut self, name: &str, bytes: &[u8]) -> Result<(), AllocError>
        ensures ok { OnOk result (self.new ≡ appended name.now bytes.now self.old) }
        ensures err { OnErr result (self.new ≡ self.old) }
    {
        extend_file(self.alloc, &mut self.files, name, bytes)
    }

    // Leaves the file of this name there and empty.
    pub(crate) fn clear(&mut self, name: &str) -> Result<(), AllocError>
        ensures ok { OnOk result (self.new ≡ begun name.now self.old) }
        ensures err { OnErr result (self.new ≡ self.old) }
    {
        let empty = Vec::new(self.alloc);
        put_file(self.alloc, &mut self.files, name, empty)
    }
}

// The first bytes of a file from a place on, as many as there is room for.
fn copy_from(bytes: &[u8], at: u64, buf: &mut [u8]) -> usize
    ensures bound { result ≤ length buf.new }
    ensures bytes { ReadsFrom bytes.now at result buf.new }
{
    if at >= bytes.len() as u64 {
        return 0;
    }
    let rest = &bytes[at as usize..];
    let count = rest.len().min(buf.len());
    buf[..count].copy_from_slice(&rest[..count]);
    count
}

impl Folder for SureFolder {
    ghost held = { λ files. Some files };

    ghost faults = { λ _. 0 };

    /// As of every folder. It takes no memory, so it always answers.
    fn size(&mut self, name: &str) -> Result<Option<u64>, PutEnd>
        ensures same { self.new ≡ self.old }
        ensures size { result ≡ Ok (option_map length (get self.old name.now)) }
        ensures cause { HasCause 0 0 result }
    {
        match self.file(name) {
            Some(bytes) => Ok(Some(bytes.len() as u64)),
            None => Ok(None),
        }
    }

    /// As of every folder. It takes no memory, so it always answers.
    fn read(&mut self, name: &str, at: u64, buf: &mut [u8]) -> Result<usize, PutEnd>
        ensures same { self.new ≡ self.old }
        ensures answers { IsOk result }
        ensures bound { ReadsAtMost result buf.new }
        ensures bytes { IfOk result (λ n. ReadsFrom (bytes_of self.old name.now) at n buf.new) }
        ensures refused { OnErr result (buf.new ≡ buf.old) }
        ensures cause { HasCause 0 0 result }
    {
        match self.file(name) {
            Some(bytes) => Ok(copy_from(bytes, at, buf)),
            None => Ok(0),
        }
    }

    /// As of every folder. Only a lack of memory refuses it, and then all files are as before.
    fn begin(&mut self, name: &str) -> Result<(), PutEnd>
        ensures done { OnOk result (self.new ≡ begun name.now self.old) }
        ensures refused { OnErr result (self.new ≡ self.old) }
        ensures memory { IfErr result (λ end. end ≡ PutEnd.Memory) }
        ensures cause { HasCause 0 0 result }
    {
        self.clear(name)?;
        Ok(())
    }

    /// As of every folder. Only a lack of memory refuses it, and then all files are as before.
    fn append(&mut self, name: &str, bytes: &[u8]) -> Result<(), PutEnd>
        ensures done { OnOk result (self.new ≡ appended name.now bytes.now self.old) }
        ensures refused { OnErr result (self.new ≡ self.old) }
        ensures memory { IfErr result (λ end. end ≡ PutEnd.Memory) }
        ensures cause { HasCause 0 0 result }
    {
        self.extend(name, bytes)?;
        Ok(())
    }
}

/// A sink in memory, which never fails. A clause sees the bytes so far.
#[derive(Drop)]
pub struct SureSink {
    bytes: Vec<u8>,
}

impl Model for SureSink {
    ghost use Rattle.std.specs.Prelude.{ℕ, List};

    ghost Value = { List ℕ };

    ghost view = { λ s. s.bytes.items };
}

impl SureSink {
    /// A sink without bytes. It takes no memory.
    pub fn new(alloc: Global) -> SureSink
        ensures { result ≡ [] }
    {
        SureSink {
            bytes: Vec::new(alloc),
        }
    }

    /// The bytes so far.
    pub fn bytes(&self) -> &[u8]
        ensures { result.now ≡ self.now }
    {
        &self.bytes
    }

    // Adds the bytes at the end.
    pub(crate) fn extend(&mut self, bytes: &[u8]) -> Result<(), AllocError>
        ensures ok { OnOk result (self.new ≡ self.old ++ bytes.now) }
        ensures err { OnErr result (self.new ≡ self.old) }
    {
        self.bytes.extend_from_slice(bytes)
    }
}

impl Sink for SureSink {
    ghost held = { λ bytes. Some bytes };

    ghost faults = { λ _. 0 };

    /// As of every sink. Only a lack of memory refuses it, and then the bytes are as before.
    fn put(&mut self, bytes: &[u8]) -> Result<(), PutEnd>
        ensures done { OnOk result (self.new ≡ self.old ++ bytes.now) }
        ensures refused { OnErr result (self.new ≡ self.old) }
        ensures memory { IfErr result (λ end. end ≡ PutEnd.Memory) }
        ensures cause { HasCause 0 0 result }
    {
        self.extend(bytes)?;
        Ok(())
    }
}
