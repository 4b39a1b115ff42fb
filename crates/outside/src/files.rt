//! Files by name, as a trait.
ghost use Rattle.std.specs.Prelude.{◌≡◌, ◌<◌, ◌≤◌, ◌+◌, ◌^◌, ℕ, List, Option, Some, length, IfOk};
ghost use Rattle.outside.specs.Bytes.{HoldsBytes};
ghost use Rattle.outside.specs.Fault.{Counts};
ghost use Rattle.outside.specs.Files.{Content, Read, Write, Append, Replace, ReadGives, ReadBegun, Wrote, WriteBegun};

use crate::FileFault;
use std::alloc::Global;

/// Files by name.
pub trait Files {
    /// What a read gives of each name, where the files say it.
    ghost contents: { Self → Option (List ℕ → Content) };

    /// The reads begun, the oldest first, where the files say it.
    ghost reads: { Self → Option (List Read) };

    /// The appends and replaces begun, the oldest first, where the files say it. What a crash may leave is
    /// `CrashLeaves` of the contents at the start of a run and of the writes begun in it.
    ghost writes: { Self → Option (List Write) };

    /// How often a read has failed. It never falls, and ends at 2^64 - 1.
    ghost read_faults: { Self → ℕ };

    /// How often an append or a replace has failed. It never falls, and ends at 2^64 - 1.
    ghost write_faults: { Self → ℕ };

    /// The first `most + 1` bytes of a file, or all of it where it is shorter. A missing name is a failure.
    fn read(&mut self, alloc: Global, name: &str, most: u64) -> Result<Vec<u8>, FileFault>
        requires { most < 2 ^ 63 }
        ensures bytes { IfOk result (λ v. ReadGives (contents self.old) name.now most v.items) }
        ensures short { IfOk result (λ v. length v.items ≤ most + 1) }
        ensures begun { ReadBegun name.now most result (reads self.old) (reads self.new) }
        ensures contents { contents self.new ≡ contents self.old }
        ensures writes { writes self.new ≡ writes self.old }
        ensures count { Counts (read_faults self.old) (read_faults self.new) result }
        ensures write_count { write_faults self.new ≡ write_faults self.old };

    /// Adds bytes at the end of a file. A missing file is made.
    fn append(&mut self, name: &str, bytes: &[u8]) -> Result<(), FileFault>
        ensures contents { Wrote Append name.now bytes.now result (contents self.old) (contents self.new) }
        ensures begun { WriteBegun Append name.now bytes.now result (writes self.old) (writes self.new) }
        ensures reads { reads self.new ≡ reads self.old }
        ensures count { Counts (write_faults self.old) (write_faults self.new) result }
        ensures read_count { read_faults self.new ≡ read_faults self.old };

    /// Sets the whole content of a file. A missing file is made.
    fn replace(&mut self, name: &str, bytes: &[u8]) -> Result<(), FileFault>
        ensures contents { Wrote Replace name.now bytes.now result (contents self.old) (contents self.new) }
        ensures begun { WriteBegun Replace name.now bytes.now result (writes self.old) (writes self.new) }
        ensures reads { reads self.new ≡ reads self.old }
        ensures count { Counts (write_faults self.old) (write_faults self.new) result }
        ensures read_count { read_faults self.new ≡ read_faults self.old };

    /// What the files say that one holds is a list of bytes.
    ghost contents_are_bytes: { (files : Self) (of : List ℕ → Content) (name : List ℕ)
        → contents files ≡ Some of
        → HoldsBytes (of name) };
}
