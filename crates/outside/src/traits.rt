//! Folders and sinks, by what they hold and how often they failed.

ghost use Rattle.std.specs.Prelude.{◌≡◌, ℕ, List, ◌++◌, length, take, Option, is_some, IfOk, IfSome, OnOk, OnErr};
ghost use Rattle.std.specs.Option.{option_map};
ghost use Rattle.std.specs.FinMap.{get};
ghost use Rattle.std.specs.Io.{ReadsAtMost};
ghost use Rattle.std.specs.Io.KnownBytes.{append_known};
ghost use Rattle.outside.specs.Files.{Files, bytes_of, begun, appended, MayBegin, MayAppend, ReadsFrom};
ghost use Rattle.outside.specs.Causes.{HasCause};

use crate::PutEnd;

/// A folder of files, each a name and its bytes.
///
/// A folder tells what it holds or it does not, and that never changes. It counts its faults, and the
/// count never falls. A call answers `Failed` only where the count rose in that call, or stands at
/// its last value, 2^64-1.
pub trait Folder {
    /// The files, where the folder tells them.
    ghost held: { Self → Option Files };

    /// How often the folder failed.
    ghost faults: { Self → ℕ };

    /// The file's length in bytes, or `None` exactly where there is no such file.
    fn size(&mut self, name: &str) -> Result<Option<u64>, PutEnd>
        ensures same { held self.new ≡ held self.old }
        ensures size { IfSome (held self.old)
            (λ files. IfOk result (λ n. n ≡ option_map length (get files name.now))) }
        ensures cause { HasCause (faults self.old) (faults self.new) result };

    /// Puts some of the file's bytes from the place `at` on into `buf`, and gives their number. It is 0
    /// exactly where the file is absent, `at` is at or past its end, or `buf` is empty. After a refusal
    /// `buf` is as before.
    fn read(&mut self, name: &str, at: u64, buf: &mut [u8]) -> Result<usize, PutEnd>
        ensures same { held self.new ≡ held self.old }
        ensures bound { ReadsAtMost result buf.new }
        ensures bytes { IfSome (held self.old)
            (λ files. IfOk result (λ n. ReadsFrom (bytes_of files name.now) at n buf.new)) }
        ensures refused { OnErr result (buf.new ≡ buf.old) }
        ensures cause { HasCause (faults self.old) (faults self.new) result };

    /// Leaves the file there and empty. After a refusal it is empty or as before.
    fn begin(&mut self, name: &str) -> Result<(), PutEnd>
        ensures done { OnOk result (held self.new ≡ option_map (begun name.now) (held self.old)) }
        ensures refused { OnErr result (MayBegin name.now (held self.old) (held self.new)) }
        ensures told { is_some (held self.new) ≡ is_some (held self.old) }
        ensures cause { HasCause (faults self.old) (faults self.new) result };

    /// Adds the bytes at the file's end, where an absent file counts as empty. After a refusal a prefix
    /// of them was added.
    fn append(&mut self, name: &str, bytes: &[u8]) -> Result<(), PutEnd>
        ensures done { OnOk result
            (held self.new ≡ option_map (appended name.now bytes.now) (held self.old)) }
        ensures refused { OnErr result
            (MayAppend name.now bytes.now (held self.old) (held self.new)) }
        ensures told { is_some (held self.new) ≡ is_some (held self.old) }
        ensures cause { HasCause (faults self.old) (faults self.new) result };
}

/// What takes bytes one after another.
///
/// A sink tells what it holds or it does not, and counts its faults, as a `Folder` does.
pub trait Sink {
    /// The bytes so far, where the sink tells them.
    ghost held: { Self → Option (List ℕ) };

    /// How often the sink failed.
    ghost faults: { Self → ℕ };

    /// Adds the bytes. After a refusal a prefix was added.
    fn put(&mut self, bytes: &[u8]) -> Result<(), PutEnd>
        ensures done { OnOk result (held self.new ≡ append_known (held self.old) bytes.now) }
        ensures refused { OnErr result
            ((k : ℕ) × (held self.new ≡ append_known (held self.old) (take k bytes.now))) }
        ensures told { is_some (held self.new) ≡ is_some (held self.old) }
        ensures cause { HasCause (faults self.old) (faults self.new) result };
}
