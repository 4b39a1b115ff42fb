//! The files that commands read, by their formats.
ghost use Rattle.std.specs.Prelude.{◌≡◌, ◌≤◌, length, IfOk};
ghost use Rattle.std.specs.Vec.Iter.{into_iter_items};
ghost use Rattle.outside.specs.Bytes.{AreBytes};
ghost use Rattle.ledger_core.specs.Chain.{StandsFor};
ghost use Rattle.ledger_file.specs.Files.{AreFramed, file_spelling};
ghost use Rattle.ledger_file.specs.declared.fault.LoadFault.{LoadFault as Fault};
ghost use Rattle.replies.specs.Asking.{most_bytes};
ghost use Rattle.replies.specs.Runs.{Checks, FileRead};
ghost use Rattle.chain_top.specs.Formats.{ledger_file, blocks_file, ledger_format, blocks_format};
ghost use Rattle.chain_top.specs.Reads.{ledger_in, blocks_in, RefusesLoad};

use command_lines::{refused_file, refused_next, refused_start};
use data_model::{Block, FramesFault};
use keyed::{IdHash, SigCheck};
use ledger_core::Ledger;
use ledger_file::{LoadFault, few_blocks, load};
use outside::Outside;
use replies::{MOST_BYTES, Stop, ask};
use std::alloc::Global;
use std::vec::IntoIter;

/// A ledger that was read from its file, and how many bytes the file has.
#[derive(Drop)]
pub struct LedgerRead {
    pub ledger: Ledger,
    pub size: u64,
}

/// A file of blocks that was read: its bytes, which are the frames of its blocks in order, and the blocks.
#[derive(Drop)]
pub struct BlocksRead {
    pub bytes: Vec<u8>,
    pub blocks: IntoIter<Block>,
}

/// The ledger in the file of this name, which the word at this place says. Its bytes are not kept.
pub fn read_ledger<O: Outside, H: IdHash, C: SigCheck>(
    alloc: Global,
    out: &mut O,
    name: &str,
    place: u64,
    hash: &H,
    sigs: &C,
) -> Result<LedgerRead, Stop>
    ensures read { FileRead (ledger_file (H.hash_of hash.now) (C.good_of sigs.now) name.now place) ledger_in
        (O.io out.old) (O.io out.new) result }
    ensures stands { IfOk result (λ file. StandsFor (H.hash_of hash.now) (C.good_of sigs.now) file.ledger) }
    ensures few { IfOk result (λ file. length file.ledger.blocks ≤ most_bytes) }
{
    let bytes = ask(alloc, out, name, MOST_BYTES, place)?;
    load_ledger(alloc, place, bytes.as_slice(), hash, sigs)
}

fn load_ledger<H: IdHash, C: SigCheck>(
    alloc: Global,
    place: u64,
    bytes: &[u8],
    hash: &H,
    sigs: &C,
) -> Result<LedgerRead, Stop>
    requires { length bytes.now ≤ most_bytes }
    ensures read { Checks ledger_in (ledger_format (H.hash_of hash.now) (C.good_of sigs.now) place bytes.now) result }
    ensures stands { IfOk result (λ file. StandsFor (H.hash_of hash.now) (C.good_of sigs.now) file.ledger) }
    ensures few { IfOk result (λ file. length file.ledger.blocks ≤ most_bytes) }
{
    few_blocks();
    match load(alloc, hash, sigs, bytes) {
        Ok(ledger) => Ok(LedgerRead {
            ledger,
            size: bytes.len() as u64,
        }),
        Err(fault) => Err(refused_load(alloc, place, &fault)),
    }
}

// The refusal of the ledger that the word at this place names, by the fault of its file.
fn refused_load(alloc: Global, place: u64, fault: &LoadFault) -> Stop
    ensures { RefusesLoad place fault.now result }
{
    match fault {
        LoadFault::Frame { index, at, kind } => refused_file(alloc, place, *index, *at, *kind),
        LoadFault::Start(why) => refused_start(alloc, *why),
        LoadFault::Block { index, refusal } => refused_next(alloc, *index, refusal),
        LoadFault::NoMemory => Stop::NoMemory,
    }
}

/// The blocks in the file of this name, which the word at this place says, and the file's bytes.
pub fn read_blocks<O: Outside>(
    alloc: Global,
    out: &mut O,
    name: &str,
    place: u64,
) -> Result<BlocksRead, Stop>
    ensures read { FileRead (blocks_file name.now place) blocks_in (O.io out.old) (O.io out.new) result }
    ensures framed { IfOk result (λ file. AreFramed (into_iter_items file.blocks)) }
    ensures spelled { IfOk result (λ file. file.bytes.items ≡ file_spelling (into_iter_items file.blocks)) }
    ensures few { IfOk result (λ file. length (into_iter_items file.blocks) ≤ most_bytes) }
{
    let bytes = ask(alloc, out, name, MOST_BYTES, place)?;
    blocks_of(alloc, place, bytes)
}

fn blocks_of(alloc: Global, place: u64, bytes: Vec<u8>) -> Result<BlocksRead, Stop>
    requires { length bytes.items ≤ most_bytes }
    ensures read { Checks blocks_in (blocks_format place bytes.items) result }
    ensures framed { IfOk result (λ file. AreFramed (into_iter_items file.blocks)) }
    ensures spelled { IfOk result (λ file. file.bytes.items ≡ file_spelling (into_iter_items file.blocks)) }
    ensures few { IfOk result (λ file. length (into_iter_items file.blocks) ≤ most_bytes) }
{
    few_blocks();
    match data_model::read_blocks(alloc, bytes.as_slice()) {
        Ok(blocks) => Ok(BlocksRead {
            bytes,
            blocks: blocks.into_vec().into_iter(),
        }),
        Err(FramesFault::At { index, at, kind }) => {
            Err(refused_file(alloc, place, index, at, kind))
        }
        Err(FramesFault::NoMemory) => Err(Stop::NoMemory),
    }
}
