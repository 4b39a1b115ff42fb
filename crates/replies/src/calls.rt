//! The calls on the outside, each with what stops a command where it fails.
ghost use Rattle.std.specs.Prelude.{◌≡◌, ◌<◌, ◌≤◌, ◌+◌, ◌^◌, [], ◌∷◌, length, IsFalse, IfOk};
ghost use Rattle.outside.specs.Files.{Append, Replace, ReadGives};
ghost use Rattle.outside.specs.Steps.{Step, Read, Write, Print, Began, is_read};
ghost use Rattle.outside.specs.World.{Io};
ghost use Rattle.replies.specs.Faults.{read_stop, write_stop};
ghost use Rattle.replies.specs.Plan.{done, Does};

use crate::stop::Stop;
use outside::{FileFault, Outside};
use std::alloc::Global;

/// The first `most + 1` bytes of a file, or all of it where it is shorter. A missing file is a read that failed.
pub fn read<O: Outside>(alloc: Global, out: &mut O, name: &str, most: u64) -> Result<Vec<u8>, Stop>
    requires { most < 2 ^ 63 }
    ensures does { Does (done (Read name.now most ∷ [])) (O.io out.old) (O.io out.new) result }
    ensures bytes { IfOk result (λ v. ReadGives (O.io out.old).world.contents name.now most v.items) }
    ensures short { IfOk result (λ v. length v.items ≤ most + 1) }
{
    match out.read(alloc, name, most) {
        Ok(bytes) => Ok(bytes),
        Err(fault) => Err(read_stop(fault)),
    }
}

// What stops a command where a read was not done.
fn read_stop(fault: FileFault) -> Stop
    ensures { result ≡ read_stop fault }
{
    match fault {
        FileFault::Failed => Stop::ReadFault,
        FileFault::NoMemory => Stop::NoMemory,
    }
}

/// What a write or a print answered, with what stops a command where it failed.
pub fn written(answer: Result<(), FileFault>) -> Result<(), Stop>
    ensures { (step : Step) (before after : Io)
        → IsFalse (is_read step)
        → Began step before after answer
        → Does (done (step ∷ [])) before after result }
{
    match answer {
        Ok(()) => Ok(()),
        Err(fault) => Err(write_stop(fault)),
    }
}

// What stops a command where a write or a print was not done.
fn write_stop(fault: FileFault) -> Stop
    ensures { result ≡ write_stop fault }
{
    match fault {
        FileFault::Failed => Stop::WriteFault,
        FileFault::NoMemory => Stop::NoMemory,
    }
}

/// Sets the whole content of a file, which is made where it is missing. Where that fails, the old or the new content
/// stands.
pub fn replace<O: Outside>(out: &mut O, name: &str, bytes: &[u8]) -> Result<(), Stop>
    ensures { Does (done (Write Replace name.now bytes.now ∷ [])) (O.io out.old) (O.io out.new) result }
{
    written(out.replace(name, bytes))
}

/// Prints one line, its newline among its bytes. Where that fails, a prefix of it may be printed.
pub fn say<O: Outside>(out: &mut O, line: &[u8]) -> Result<(), Stop>
    ensures { Does (done (Print line.now ∷ [])) (O.io out.old) (O.io out.new) result }
{
    written(out.print(line))
}

/// Sets the whole content of a file, and where that was done prints a line.
pub fn replace_and_say<O: Outside>(
    out: &mut O,
    name: &str,
    bytes: &[u8],
    line: &[u8],
) -> Result<(), Stop>
    ensures { Does (done (Write Replace name.now bytes.now ∷ Print line.now ∷ []))
        (O.io out.old) (O.io out.new) result }
{
    replace(out, name, bytes)?;
    say(out, line)
}
