//! Files and printed bytes together, as one trait.
ghost use Rattle.std.specs.Prelude.{◌≡◌, ◌<◌, ◌≤◌, ◌+◌, ◌^◌, ℕ, List, [], Option, Some, length, IfOk, IsOk};
ghost use Rattle.outside.specs.Bytes.{HoldsBytes};
ghost use Rattle.outside.specs.Files.{Content, Append, Replace, ReadGives};
ghost use Rattle.outside.specs.World.{Io};
ghost use Rattle.outside.specs.Steps.{Read, Write, Print, Began};

use crate::FileFault;
use std::alloc::Global;

/// Files by name and the place of printed bytes, as one, so that a caller carries one value and owes one clause a call.
/// Each method is one step. Its clause `did` says of files and sink together what the step changed, and that all else
/// is as it was. `Both` makes one of `Files` and a `Sink`.
///
/// `Failed` comes only where the count of the step's own faults rose (reads have one, appends and replaces another,
/// prints a third), and the step may have been done in part. After `NoMemory` nothing was begun, and all is as before.
pub trait Outside {
    /// What files and sink say of themselves, and the references through which they are held.
    ghost io: { Self → Io };

    /// The first `most + 1` bytes of a file, or all of it where it is shorter: a file has more than `most` bytes where
    /// that many come. A missing name is a failure.
    fn read(&mut self, alloc: Global, name: &str, most: u64) -> Result<Vec<u8>, FileFault>
        requires { most < 2 ^ 63 }
        ensures did { Began (Read name.now most) (io self.old) (io self.new) result }
        ensures bytes { IfOk result (λ v. ReadGives (io self.old).world.contents name.now most v.items) }
        ensures short { IfOk result (λ v. length v.items ≤ most + 1) };

    /// Adds bytes at the end of a file. A missing file is made. After a failure a prefix of the bytes may stand there.
    fn append(&mut self, name: &str, bytes: &[u8]) -> Result<(), FileFault>
        ensures did { Began (Write Append name.now bytes.now) (io self.old) (io self.new) result };

    /// Sets the whole content of a file. A missing file is made. After a failure the old or the new content stands.
    fn replace(&mut self, name: &str, bytes: &[u8]) -> Result<(), FileFault>
        ensures did { Began (Write Replace name.now bytes.now) (io self.old) (io self.new) result };

    /// Prints one piece. An empty one is printed without a call on the sink. After a failure a prefix may be printed.
    fn print(&mut self, bytes: &[u8]) -> Result<(), FileFault>
        ensures did { Began (Print bytes.now) (io self.old) (io self.new) result }
        ensures empty { bytes.now ≡ [] → IsOk result };

    /// What the files say that one holds is a list of bytes.
    ghost contents_are_bytes: { (o : Self) (of : List ℕ → Content) (name : List ℕ)
        → (io o).world.contents ≡ Some of
        → HoldsBytes (of name) };
}
