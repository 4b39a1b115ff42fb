//! The frames of a file, split by their lengths.
ghost use Rattle.std.specs.Prelude.{◌≡◌, ◌≤◌, ◌++◌, ℕ, List, [], length};
ghost use Rattle.data_model.specs.declared.block.Block.{Block};
ghost use Rattle.data_model.specs.Files.{IsFramed, block_frame, longest_frame};
ghost use Rattle.wire.specs.Spelling.{varstring};
ghost use Rattle.ledger_file.specs.Files.{IsUnframed};

use wire::take_varstring;

// The most bytes of a frame after its length.
const FRAME_MOST: u64 = 67_108_864;

/// The first frame of bytes that are frames one after the other, its length among its bytes, and the bytes after it.
/// Only the length is read. Bytes that begin with no length, with one above 64 MiB, or with one that passes the bytes
/// after it, come back whole, and none after them.
pub fn split_frame(bytes: &[u8]) -> (&[u8], &[u8])
    // The frame of a block is split off, whatever follows it.
    ensures frame { (block : Block) (more : List ℕ)
        → IsFramed block
        → bytes.now ≡ block_frame block ++ more
        → (result.0.now ≡ block_frame block) × (result.1.now ≡ more) }

    // So are a length and so many bytes that spell no block.
    ensures held { (held more : List ℕ)
        → length held ≤ longest_frame
        → bytes.now ≡ varstring held ++ more
        → (result.0.now ≡ varstring held) × (result.1.now ≡ more) }

    // No other bytes are split.
    ensures whole { IsUnframed bytes.now → (result.0.now ≡ bytes.now) × (result.1.now ≡ []) }
{
    match take_varstring(bytes, FRAME_MOST) {
        Ok((_, len)) => bytes.split_at(len as usize),
        Err(_) => (bytes, &[]),
    }
}
