//! The block that starts a chain.
ghost use Rattle.std.specs.Prelude.{◌≡◌, ◌≢◌, [], ◌∷◌, IfOk, IfErr, Option, Some, None};
ghost use Rattle.data_model.specs.Spelling.{IsHeader};
ghost use Rattle.entry_ids.specs.Entry.{header_id};
ghost use Rattle.keyed.specs.Functions.{Check};
ghost use Rattle.wire.specs.Tables.{First};
ghost use Rattle.ledger_core.specs.Roots.{root_of_none};
ghost use Rattle.ledger_core.specs.Start.{start_causes, StartRefusal, RefusesStart};
ghost use Rattle.ledger_core.specs.Chain.{StandsFor};

use crate::{Ledger, StartFault};
use data_model::{Block, Blocks};
use entry_ids::block_id;
use keyed::IdHash;
use std::alloc::Global;
use wire::Id;

impl Ledger {
    /// The ledger of an initial block alone. A refused block is dropped.
    pub fn start<H: IdHash>(alloc: Global, hash: &H, initial: Block) -> Result<Ledger, StartFault>
        requires { IsHeader initial.header }
        ensures initial { IfOk result (λ _. StartRefusal (H.hash_of hash.now) initial None) }
        ensures blocks { IfOk result (λ ledger. ledger.blocks ≡ initial ∷ []) }
        ensures id { IfOk result (λ ledger. ledger.tip_id ≡ header_id (H.hash_of hash.now) initial.header) }

        // It stands for this hash, and for any check of signatures.
        ensures stands { IfOk result (λ ledger. (check : Check) → StandsFor (H.hash_of hash.now) check ledger) }
        ensures refused { IfErr result (λ fault. RefusesStart (H.hash_of hash.now) initial fault) }
    {
        let empty_root = hash.hash(b"");
        let tip_id = initial_id(alloc, hash, &empty_root, &initial)?;
        let mut blocks = Blocks::new(alloc);
        blocks.push(initial)?;
        Ok(Ledger {
            blocks,
            initial: tip_id,
            tip_id,
            empty_root,
            unspent: Vec::new(alloc),
            live: Vec::new(alloc),
        })
    }
}

// The id of a block that starts a chain, where this is the root of no ids.
fn initial_id<H: IdHash>(
    alloc: Global,
    hash: &H,
    root: &Id,
    block: &Block,
) -> Result<Id, StartFault>
    requires root { root.now ≡ root_of_none (H.hash_of hash.now) }
    requires header { IsHeader block.now.header }
    ensures initial { IfOk result (λ _. StartRefusal (H.hash_of hash.now) block.now None) }
    ensures id { IfOk result (λ id. id ≡ header_id (H.hash_of hash.now) block.now.header) }
    ensures refused { IfErr result (λ fault. RefusesStart (H.hash_of hash.now) block.now fault) }
{
    if let Some(fault) = fault_of(root, block) {
        return Err(fault);
    }
    Ok(block_id(alloc, hash, &block.header)?)
}

// The first of I1 to I5 that holds.
fn fault_of(root: &Id, block: &Block) -> Option<StartFault>
    ensures first { First (start_causes root.now block.now) result }
    ensures refused { result ≢ Some StartFault.NoMemory }
{
    let header = &block.header;
    if header.height != 1 {
        return Some(StartFault::HeightNotOne);
    }
    if header.previous != [0; 32] {
        return Some(StartFault::PreviousNotZero);
    }
    if header.version != 1 {
        return Some(StartFault::VersionNotOne);
    }
    if !block.txs.is_empty() || !block.args.is_empty() {
        return Some(StartFault::NotEmpty);
    }
    if header.tx_root != *root || header.unspent_root != *root {
        return Some(StartFault::RootsNotEmpty);
    }
    None
}
