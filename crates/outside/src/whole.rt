//! Reads and writes of the system repeated until all bytes are moved.
ghost use Rattle.std.specs.Prelude.{◌≡◌, ◌<◌, ◌≤◌, ◌+◌, ◌^◌, length, take, IfOk, IfSome};
ghost use Rattle.outside.specs.Whole.{WritesWhole};

use crate::FileFault;
use std::alloc::Global;
use std::io::{Read, Write};

/// Writes all the bytes, turn by turn. A turn that takes none of them is a failure.
pub fn write_whole<W: Write>(out: &mut W, bytes: &[u8]) -> Result<(), FileFault>
    ensures { WritesWhole (W.contents out.old) (W.contents out.new) bytes.now result }
{
    let mut rest = bytes;
    while !rest.is_empty() {
        let taken = out.write(rest)?;
        if taken == 0 {
            return Err(FileFault::Failed);
        }
        rest = &rest[taken..];
    }
    out.flush()?;
    Ok(())
}

/// The first `most + 1` bytes that a reader gives, or all where they are fewer.
pub fn read_prefix<F: Read>(alloc: Global, file: &mut F, most: u64) -> Result<Vec<u8>, FileFault>
    requires { most < 2 ^ 63 }
    ensures short { IfOk result (λ v. length v.items ≤ most + 1) }
    ensures bytes { IfOk result (λ v. IfSome (F.remaining file.old) (λ whole. v.items ≡ take (most + 1) whole)) }
{
    let limit = most as usize + 1;
    let mut front = Vec::new(alloc);
    let mut buffer = [0; 4096];
    while front.len() < limit {
        let room = (limit - front.len()).min(buffer.len());
        let taken = file.read(&mut buffer[..room])?;
        if taken == 0 {
            return Ok(front);
        }
        front.extend_from_slice(&buffer[..taken])?;
    }
    Ok(front)
}
