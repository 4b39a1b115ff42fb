//! What takes printed bytes, as a trait.
ghost use Rattle.std.specs.Prelude.{◌≡◌, ◌<◌, ℕ, List, Option, length, OnOk, IsErrOf};
ghost use Rattle.outside.specs.Fault.{Counts};
ghost use Rattle.outside.specs.Sink.{output_with, OutputsPart};

use crate::FileFault;

/// Where printed bytes go.
pub trait Sink {
    /// What it holds, where it says it.
    ghost output: { Self → Option (List ℕ) };

    /// How often a write has failed. It never falls, and ends at 2^64 - 1.
    ghost faults: { Self → ℕ };

    /// Writes one piece at the end.
    fn write(&mut self, bytes: &[u8]) -> Result<(), FileFault>
        requires { 0 < length bytes.now }
        ensures ok { OnOk result (output self.new ≡ output_with (output self.old) bytes.now) }
        ensures failed { IsErrOf result FileFault.Failed → OutputsPart (output self.old) bytes.now (output self.new) }
        ensures memory { IsErrOf result FileFault.NoMemory → output self.new ≡ output self.old }
        ensures count { Counts (faults self.old) (faults self.new) result };
}
