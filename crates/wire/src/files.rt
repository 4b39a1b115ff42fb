//! Files of records, each after its length, to the end of the bytes.
ghost use Rattle.std.specs.Prelude.{◌≡◌, ◌<◌, ◌^◌, ℕ, Ok, Err, IfOk};
ghost use Rattle.wire.specs.declared.files.FramesFault.TheVariants.{NoMemory};
ghost use Rattle.wire.specs.Files.{FileFault, FramesReadAs, FrameLaws, FileGives};
ghost use Rattle.wire.specs.Layout.{FrameFits, frame_spelling};
ghost use Rattle.wire.specs.FirstFault.{FrameFault};
ghost use Rattle.wire.specs.Readers.{Answered};

use crate::{Cursor, DataFault, DataKind, Listed, NoMemory, Record};
use std::alloc::Global;

/// Why bytes could not be read as such a file.
#[derive(Clone, Copy, Debug, PartialEq, Eq)]
pub enum FramesFault {
    /// The first fault of the file: the number of its record and the byte of the file at which it stands, both counted
    /// from 0. A record whose length passes the rest of the file is short at the first byte of its length.
    At { index: u64, at: u64, kind: DataKind },
    /// Out of memory.
    NoMemory,
}

impl From<NoMemory> for FramesFault {
    ghost from_gives = { λ _ e. e ≡ NoMemory };

    fn from(_: NoMemory) -> FramesFault {
        FramesFault::NoMemory
    }
}

/// The records of a file, each of at most so many bytes after its length. An empty file has none.
pub fn read_frames<T: Record>(
    alloc: Global,
    bytes: &[u8],
    most: u64,
) -> Result<Listed<T>, FramesFault>
    // What is read is spelled so.
    ensures found { IfOk result (λ xs. FramesReadAs most T.fits T.spelling T.faults bytes.now (Ok xs)) }

    // What is spelled so is read, unless memory runs out.
    ensures only { (xs : _)
        → FramesReadAs most T.fits T.spelling T.faults bytes.now (Ok xs)
        → FileGives result (Ok xs) }

    // What is reported is the first fault, and the first fault is reported, unless memory runs out.
    ensures fault { (f : FileFault)
        → result ≡ Err (FramesFault.At f.index f.at f.kind)
        → FramesReadAs most T.fits T.spelling T.faults bytes.now (Err f) }
    ensures told { (f : FileFault)
        → FramesReadAs most T.fits T.spelling T.faults bytes.now (Err f)
        → FileGives result (Err f) }
{
    T::readings();
    all_frames(alloc, bytes, most)
}

// The same, one way.
fn all_frames<T: Record>(alloc: Global, bytes: &[u8], most: u64) -> Result<Listed<T>, FramesFault>
    ensures found { IfOk result (λ xs. FramesReadAs most T.fits T.spelling T.faults bytes.now (Ok xs)) }
    ensures fault { (f : FileFault)
        → result ≡ Err (FramesFault.At f.index f.at f.kind)
        → FramesReadAs most T.fits T.spelling T.faults bytes.now (Err f) }
{
    let mut cursor = Cursor::new(bytes);
    let mut items = Listed::new(alloc);
    while !cursor.is_at_end() {
        match next_frame(alloc, &mut cursor, most) {
            Ok(item) => items.push(item)?,
            Err(DataFault::At { at, kind }) => {
                return Err(FramesFault::At {
                    index: items.len() as u64,
                    at,
                    kind,
                });
            }
            Err(DataFault::NoMemory) => return Err(FramesFault::NoMemory),
        }
    }
    Ok(items)
}

// The record of the frame at this place.
fn next_frame<T: Record>(alloc: Global, cursor: &mut Cursor<'_>, most: u64) -> Result<T, DataFault>
    ensures { Answered (FrameFits most T.fits T.spelling) (frame_spelling T.spelling)
        (FrameFault most T.fits T.spelling T.faults) cursor.old cursor.new result }
{
    T::readings();
    let _bytes = cursor.rest();
    cursor.frame(alloc, most)
}

/// The laws of such files, for the proofs of crates above. It does nothing when it runs.
pub fn file_readings<T: Record>()
    ensures { (most : ℕ) → most < 2 ^ 63 → FrameLaws most T.fits T.spelling T.faults }
{
    T::readings();
}
