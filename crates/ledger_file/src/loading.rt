//! The ledger that a file holds, block by block.
ghost use Rattle.std.specs.Prelude.{◌+◌, ◌<◌, ◌^◌, ◌++◌, ℕ, List, length, Result, Ok, IfOk};
ghost use Rattle.std.specs.Vec.Iter.{into_iter_items};
ghost use Rattle.data_model.specs.declared.block.Block.{Block};
ghost use Rattle.data_model.specs.Files.{BlocksReadAs};
ghost use Rattle.wire.specs.Spelling.{AreBytes};
ghost use Rattle.ledger_core.specs.Chain.{StandsFor};
ghost use Rattle.ledger_file.specs.Files.{AreFramed};
ghost use Rattle.ledger_file.specs.Loading.{LoadsAs};
ghost use Rattle.ledger_file.specs.Loaded.{Loads, LoadGives};
ghost use Rattle.ledger_file.specs.declared.fault.LoadFault.{LoadFault};

use crate::LoadFault;
use crate::laws::one_load;
use data_model::{Block, DataKind, read_blocks};
use keyed::{IdHash, SigCheck};
use ledger_core::{Ledger, OfferFault};
use std::alloc::Global;
use std::vec::IntoIter;

/// The ledger of a file of fewer than 2^40 bytes: its blocks, moved and not copied, where they are a chain. The program
/// of each but the last is run once, on the arguments of the next.
pub fn load<H: IdHash, C: SigCheck>(
    alloc: Global,
    hash: &H,
    sigs: &C,
    bytes: &[u8],
) -> Result<Ledger, LoadFault>
    requires { length bytes.now < 2 ^ 40 }

    // What is answered is so: the blocks are those that the bytes are frames of, and a chain; a fault is the first.
    ensures loads { Loads (H.hash_of hash.now) (C.good_of sigs.now) bytes.now result }

    // What is so is answered, unless memory runs out.
    ensures told { (answer : Result (List Block) LoadFault)
        → LoadsAs (H.hash_of hash.now) (C.good_of sigs.now) bytes.now answer
        → LoadGives result answer }
    ensures stands { IfOk result (StandsFor (H.hash_of hash.now) (C.good_of sigs.now)) }
{
    one_load();
    are_bytes(bytes);
    load_frames(alloc, hash, sigs, bytes)
}

// What a slice of bytes holds. It does nothing when it runs.
fn are_bytes(_bytes: &[u8])
    ensures { AreBytes _bytes.now }
{}

// The same, one way.
fn load_frames<H: IdHash, C: SigCheck>(
    alloc: Global,
    hash: &H,
    sigs: &C,
    bytes: &[u8],
) -> Result<Ledger, LoadFault>
    requires { length bytes.now < 2 ^ 40 }
    ensures loads { Loads (H.hash_of hash.now) (C.good_of sigs.now) bytes.now result }
    ensures stands { IfOk result (StandsFor (H.hash_of hash.now) (C.good_of sigs.now)) }
{
    let blocks = read_blocks(alloc, bytes)?;
    replay(alloc, hash, sigs, blocks.into_vec().into_iter())
}

// The ledger of these blocks, or its fault: what loading any file answers that reads as them.
fn replay<H: IdHash, C: SigCheck>(
    alloc: Global,
    hash: &H,
    sigs: &C,
    mut blocks: IntoIter<Block>,
) -> Result<Ledger, LoadFault>
    requires framed { AreFramed (into_iter_items blocks) }
    requires few { length (into_iter_items blocks) < 2 ^ 40 }
    ensures loads { (bytes : List ℕ)
        → BlocksReadAs bytes (Ok (into_iter_items blocks))
        → Loads (H.hash_of hash.now) (C.good_of sigs.now) bytes result }
    ensures stands { IfOk result (StandsFor (H.hash_of hash.now) (C.good_of sigs.now)) }
{
    let Some(initial) = blocks.next() else {
        return Err(LoadFault::Frame {
            index: 0,
            at: 0,
            kind: DataKind::Count,
        });
    };
    let ledger = Ledger::start(alloc, hash, initial)?;
    grow(alloc, hash, sigs, ledger, blocks)
}

// Adds the later blocks.
fn grow<H: IdHash, C: SigCheck>(
    alloc: Global,
    hash: &H,
    sigs: &C,
    mut ledger: Ledger,
    mut later: IntoIter<Block>,
) -> Result<Ledger, LoadFault>
    requires stands { StandsFor (H.hash_of hash.now) (C.good_of sigs.now) ledger }
    requires framed { AreFramed (into_iter_items later) }
    requires few { length ledger.blocks + length (into_iter_items later) < 2 ^ 40 }
    ensures loads { (bytes : List ℕ)
        → BlocksReadAs bytes (Ok (ledger.blocks ++ into_iter_items later))
        → Loads (H.hash_of hash.now) (C.good_of sigs.now) bytes result }
    ensures stands { IfOk result (StandsFor (H.hash_of hash.now) (C.good_of sigs.now)) }
{
    while let Some(block) = later.next() {
        match ledger.offer(alloc, hash, sigs, block) {
            Ok(_) => {}
            Err(OfferFault::Refused(refusal)) => {
                let index = ledger.blocks().len() as u64;
                return Err(LoadFault::Block { index, refusal });
            }
            Err(OfferFault::NoMemory) => return Err(LoadFault::NoMemory),
        }
    }
    Ok(ledger)
}
