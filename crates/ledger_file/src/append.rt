//! Blocks and frames added at the end of a ledger's file.
ghost use Rattle.std.specs.Prelude.{◌≡◌};
ghost use Rattle.data_model.specs.Files.{block_frame};
ghost use Rattle.data_model.specs.Spelling.{IsBlock};
ghost use Rattle.outside.specs.Fault.{Counts};
ghost use Rattle.outside.specs.Files.{Append, Wrote, WriteBegun};
ghost use Rattle.outside.specs.Steps.{Write, Began};

use data_model::{Block, frame};
use outside::{FileFault, Files, Outside};
use std::alloc::Global;
use wire::NoMemory;

/// Adds the frame of a block at the end of a file, by one append. A missing file is made. This is how a command adds a
/// block whose frame it has read.
///
/// `Failed` comes only where the count of failed writes rose: a prefix of the frame may stand in the file. After
/// `NoMemory` nothing was begun, and all is as before.
pub fn append_frame<O: Outside>(out: &mut O, name: &str, frame: &[u8]) -> Result<(), FileFault>
    ensures { Began (Write Append name.now frame.now) (O.io out.old) (O.io out.new) result }
{
    out.append(name, frame)
}

/// Adds a block at the end of a file, by one append of its frame, for a caller that has files alone. A missing file is
/// made.
///
/// `Failed` comes only where the count of the files' failed writes rose. The append was begun then, and a prefix of
/// the frame may stand in the file. After `NoMemory` nothing was begun, and all is as before.
pub fn append_block<F: Files>(
    alloc: Global,
    files: &mut F,
    name: &str,
    block: &Block,
) -> Result<(), FileFault>
    requires { IsBlock block.now }
    ensures contents { Wrote Append name.now (block_frame block.now) result (F.contents files.old)
        (F.contents files.new) }
    ensures begun { WriteBegun Append name.now (block_frame block.now) result (F.writes files.old)
        (F.writes files.new) }
    ensures reads { F.reads files.new ≡ F.reads files.old }
    ensures count { Counts (F.write_faults files.old) (F.write_faults files.new) result }
    ensures read_count { F.read_faults files.new ≡ F.read_faults files.old }
{
    let frame = frame(alloc, block)?;
    files.append(name, frame.as_slice())
}
