//! The files that a command reads.
ghost use Rattle.std.specs.Prelude.{◌+◌, ◌<◌, ◌≤◌, ◌^◌, length, IfOk};
ghost use Rattle.outside.specs.Bytes.{AreBytes};
ghost use Rattle.replies.specs.Asking.{Asked, fit_together};
ghost use Rattle.replies.specs.Recipe.{gives};
ghost use Rattle.replies.specs.Runs.{Checks};

use crate::calls::read;
use crate::refusals::refused_size;
use crate::stop::Stop;
use outside::Outside;
use std::alloc::Global;

/// The most bytes of a file that is no source of a contract, and of two files that a command holds together: 64 MiB.
pub const MOST_BYTES: u64 = 67_108_864;

/// The bytes of the file of this name, which the word at this place says: at most so many, and a longer one is refused.
/// A missing file is a read that failed.
pub fn ask<O: Outside>(
    alloc: Global,
    out: &mut O,
    name: &str,
    most: u64,
    place: u64,
) -> Result<Vec<u8>, Stop>
    requires { most < 2 ^ 63 }
    ensures asked { Asked name.now most place (O.io out.old) (O.io out.new) result }
    ensures small { IfOk result (λ v. length v.items ≤ most) }
    ensures bytes { IfOk result (λ v. AreBytes v.items) }
{
    let bytes = read(alloc, out, name, most)?;
    are_bytes(bytes.as_slice());
    if bytes.len() as u64 > most {
        return Err(refused_size(alloc, place));
    }
    Ok(bytes)
}

// What a slice of bytes holds. It does nothing when it runs.
fn are_bytes(_bytes: &[u8])
    ensures { AreBytes _bytes.now }
{}

/// That files of these sizes, in bytes, are together within the size of one, 64 MiB. Else the one that the word at this
/// place says is refused.
pub fn fit_together(alloc: Global, place: u64, first: u64, second: u64) -> Result<(), Stop>
    ensures { Checks (λ u. u) (gives (fit_together place first second)) result }
{
    if first.saturating_add(second) > MOST_BYTES {
        return Err(refused_size(alloc, place));
    }
    Ok(())
}
