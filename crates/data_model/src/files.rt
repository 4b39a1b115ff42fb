//! Files of blocks: frames one after the other, each the length of a block's spelling and that spelling.
ghost use Rattle.std.specs.Prelude.{◌≡◌, List, Ok, Err, IfOk};
ghost use Rattle.wire.specs.Files.{FileFault, FileGives};
ghost use Rattle.data_model.specs.declared.block.Block.{Block};
ghost use Rattle.data_model.specs.Spelling.{IsBlock};
ghost use Rattle.data_model.specs.Files.{block_frame, BlocksReadAs, BlockFileLaws};

use crate::{Block, Blocks};
use std::alloc::Global;
use wire::{FramesFault, NoMemory, encode_frame, file_readings, read_frames, spellings};

const MAX_FRAME_LEN: u64 = 67_108_864;

/// The frame of a block.
pub fn frame(alloc: Global, block: &Block) -> Result<Vec<u8>, NoMemory>
    requires { IsBlock block.now }
    ensures { IfOk result (λ bytes. bytes.items ≡ block_frame block.now) }
{
    encode_frame(alloc, block)
}

/// The blocks of a file. An empty file has none.
pub fn read_blocks(alloc: Global, bytes: &[u8]) -> Result<Blocks, FramesFault>
    // What is read is spelled so.
    ensures found { IfOk result (λ blocks. BlocksReadAs bytes.now (Ok blocks)) }

    // What is spelled so is read, unless memory runs out.
    ensures only { (blocks : List Block) → BlocksReadAs bytes.now (Ok blocks) → FileGives result (Ok blocks) }

    // What is reported is the first fault, and the first fault is reported, unless memory runs out.
    ensures fault { (f : FileFault)
        → result ≡ Err (FramesFault.At f.index f.at f.kind)
        → BlocksReadAs bytes.now (Err f) }
    ensures told { (f : FileFault) → BlocksReadAs bytes.now (Err f) → FileGives result (Err f) }
{
    read_frames::<Block>(alloc, bytes, MAX_FRAME_LEN)
}

/// The laws of files of blocks, for the proofs of crates above. It does nothing when it runs.
pub fn block_files()
    ensures { BlockFileLaws }
{
    spellings();
    file_readings::<Block>();
}
