//! Blocks offered to a ledger.
ghost use Rattle.std.specs.Prelude.{◌≡◌, ◌<◌, ◌≤◌, ◌^◌, ◌++◌, [], ◌∷◌, length, Some, None, IfOk, IfErr, OnOk, OnErr};
ghost use Rattle.data_model.specs.declared.block.Block.{Block};
ghost use Rattle.entry_ids.specs.Entry.{header_id};
ghost use Rattle.vm_run.specs.declared.context.BlockContext.{BlockContext};
ghost use Rattle.wire.specs.Tables.{First};
ghost use Rattle.ledger_core.specs.Blocks.{tip_of};
ghost use Rattle.ledger_core.specs.LedgerModel.{IsSpellable};
ghost use Rattle.ledger_core.specs.Roots.{root_of_none, tx_root};
ghost use Rattle.keyed.specs.Functions.{Hash};
ghost use Rattle.ledger_core.specs.Refusal.{Refuses, RefusesUnsealed, UnsealedRefusal, ValidNext, HasVerdictAfter};
ghost use Rattle.ledger_core.specs.Refusal.{chain_causes, header_causes, state_causes};
ghost use Rattle.ledger_core.specs.Chain.{StandsFor};
ghost use Rattle.ledger_core.specs.Offering.{AreAllIds, AreChanges, RefusesBy};

use crate::txs::all_ids;
use crate::unfinished::Changes;
use crate::{BlockRefusal, Ledger, OfferFault};
use data_model::{Block, Header};
use entry_ids::{TxIds, block_id};
use keyed::{IdHash, SigCheck};
use std::alloc::Global;
use std::mem::replace;
use vm_run::laws::one_verdict;
use vm_run::{BlockContext, Context, NoMemory, Verdict, verify};
use wire::{Bytes, Id};

/// The run limit of the program that a block has to satisfy, its arguments included.
const RUN_LIMIT: u64 = 10_000;

/// A block that was added.
#[derive(Clone, Copy, Debug, PartialEq, Eq)]
pub struct Accepted {
    pub height: u64,
    pub id: Id,
}

impl Ledger {
    /// Adds a block at the end where it validly extends the chain. A refused block is dropped, and the ledger stays as
    /// it was, where memory runs out too.
    pub fn offer<H: IdHash, C: SigCheck>(
        &mut self,
        alloc: Global,
        hash: &H,
        sigs: &C,
        block: Block,
    ) -> Result<Accepted, OfferFault>
        requires stands { StandsFor (H.hash_of hash.now) (C.good_of sigs.now) self.old }
        requires within { IsSpellable block }
        requires room { length self.old.blocks < 2 ^ 40 }
        ensures valid { OnOk result (ValidNext (H.hash_of hash.now) (C.good_of sigs.now) self.old.blocks block) }
        ensures added { OnOk result (self.new.blocks ≡ self.old.blocks ++ block ∷ []) }
        ensures answer { IfOk result
            (λ added. (added.height ≡ block.header.height) × (added.id ≡ header_id (H.hash_of hash.now) block.header)) }
        ensures refused { IfErr result
            (λ fault. Refuses (H.hash_of hash.now) (C.good_of sigs.now) self.old.blocks block fault) }
        ensures unchanged { OnErr result (self.new ≡ self.old) }
        ensures stands { StandsFor (H.hash_of hash.now) (C.good_of sigs.now) self.new }
    {
        let mut block = block;
        let (id, changes) = self.check_block(alloc, hash, sigs, &mut block)?;
        let height = block.header.height;
        self.settle(block, id, changes)?;
        Ok(Accepted { height, id })
    }

    /// The first refusal of a block whose arguments are not there as yet, or none: the same table without B7. It
    /// changes nothing.
    pub fn check_unsealed<H: IdHash, C: SigCheck>(
        &self,
        alloc: Global,
        hash: &H,
        sigs: &C,
        block: &Block,
    ) -> Result<(), OfferFault>
        requires stands { StandsFor (H.hash_of hash.now) (C.good_of sigs.now) self.now }
        requires within { IsSpellable block.now }
        requires room { length self.now.blocks < 2 ^ 40 }
        ensures valid { OnOk result
            (UnsealedRefusal (H.hash_of hash.now) (C.good_of sigs.now) self.now.blocks block.now None) }
        ensures refused { IfErr result
            (RefusesUnsealed (H.hash_of hash.now) (C.good_of sigs.now) self.now.blocks block.now) }
    {
        let ids = self.check_header(alloc, hash, block)?;
        self.check_state(alloc, hash, sigs, block, ids.as_slice())?;
        Ok(())
    }

    // The id of a block that validly extends the chain, and what its transactions change. Its header and each
    // transaction are hashed once, and the program is run at most once. A block that is refused may be left without its
    // program.
    fn check_block<H: IdHash, C: SigCheck>(
        &self,
        alloc: Global,
        hash: &H,
        sigs: &C,
        block: &mut Block,
    ) -> Result<(Id, Changes), OfferFault>
        requires stands { StandsFor (H.hash_of hash.now) (C.good_of sigs.now) self.now }
        requires within { IsSpellable block.old }
        requires room { length self.now.blocks < 2 ^ 40 }
        ensures valid { OnOk result
            (ValidNext (H.hash_of hash.now) (C.good_of sigs.now) self.now.blocks block.old) }
        ensures id { IfOk result (λ found. found.0 ≡ header_id (H.hash_of hash.now) block.old.header) }
        ensures changes { IfOk result (λ found. AreChanges (H.hash_of hash.now) block.old.txs found.1) }
        ensures refused { IfErr result
            (Refuses (H.hash_of hash.now) (C.good_of sigs.now) self.now.blocks block.old) }
        ensures same { OnOk result (block.new ≡ block.old) }
    {
        one_verdict();
        let ids = self.check_header(alloc, hash, block)?;
        let id = block_id(alloc, hash, &block.header)?;
        let verdict = verdict_after(alloc, sigs, &self.tip_block().header, id, block)?;
        if let Verdict::Failed { kind, at } = verdict {
            return Err(OfferFault::Refused(BlockRefusal::B7 { kind, at }));
        }
        let changes = self.check_state(alloc, hash, sigs, block, ids.as_slice())?;
        Ok((id, changes))
    }

    // The ids of the transactions of a block of which none of B1 to B6 holds.
    fn check_header<H: IdHash>(
        &self,
        alloc: Global,
        hash: &H,
        block: &Block,
    ) -> Result<Vec<TxIds>, OfferFault>
        requires root { self.now.empty_root ≡ root_of_none (H.hash_of hash.now) }
        requires within { IsSpellable block.now }
        requires room { (tip : Block) → tip_of self.now.blocks ≡ Some tip → tip.header.height < 2 ^ 63 }
        ensures ids { IfOk result (λ ids. AreAllIds (H.hash_of hash.now) block.now.txs ids.items) }
        ensures valid { (tip : Block)
            → tip_of self.now.blocks ≡ Some tip
            → let root = tx_root (H.hash_of hash.now) block.now in
            OnOk result (First (header_causes self.now.tip_id root tip.header block.now.header) None) }
        ensures refused { (tip : Block)
            → tip_of self.now.blocks ≡ Some tip
            → let root = tx_root (H.hash_of hash.now) block.now in
            IfErr result (RefusesBy (header_causes self.now.tip_id root tip.header block.now.header)) }
    {
        let tip = &self.tip_block().header;
        if let Some(cause) = before_root(tip, &self.tip_id, &block.header) {
            return Err(OfferFault::Refused(cause));
        }
        let ids = all_ids(alloc, hash, block.txs.as_slice())?;
        let computed = self.root_of_txs(alloc, hash, ids.as_slice())?;
        let given = block.header.tx_root;
        if given != computed {
            return Err(OfferFault::Refused(BlockRefusal::B6 { computed, given }));
        }
        Ok(ids)
    }

    // What the transactions of a block change, by their ids, where neither B8 nor B9 holds.
    fn check_state<H: IdHash, C: SigCheck>(
        &self,
        alloc: Global,
        hash: &H,
        sigs: &C,
        block: &Block,
        ids: &[TxIds],
    ) -> Result<Changes, OfferFault>
        requires stands { StandsFor (H.hash_of hash.now) (C.good_of sigs.now) self.now }
        requires within { IsSpellable block.now }
        requires ids { AreAllIds (H.hash_of hash.now) block.now.txs ids.now }
        ensures valid { OnOk result
            (First (state_causes (H.hash_of hash.now) (C.good_of sigs.now) self.now.blocks block.now) None) }
        ensures changes { IfOk result (AreChanges (H.hash_of hash.now) block.now.txs) }
        ensures refused { IfErr result (RefusesBy
            (state_causes (H.hash_of hash.now) (C.good_of sigs.now) self.now.blocks block.now)) }
    {
        let time = block.header.time;
        let changes = self.changes_of(alloc, hash, sigs, time, block.txs.as_slice(), ids)?;
        let computed = self.root_after(alloc, hash, &changes)?;
        let given = block.header.unspent_root;
        if given != computed {
            return Err(OfferFault::Refused(BlockRefusal::B9 { computed, given }));
        }
        Ok(changes)
    }
}

// The first of B1 to B4 that holds.
fn before_root(tip: &Header, tip_id: &Id, header: &Header) -> Option<BlockRefusal>
    requires room { tip.now.height < 2 ^ 63 }
    ensures { First (chain_causes tip_id.now tip.now header.now) result }
{
    if header.previous != *tip_id {
        return Some(BlockRefusal::B1 {
            tip: *tip_id,
            given: header.previous,
        });
    }
    let wanted = tip.height + 1;
    if header.height != wanted {
        return Some(BlockRefusal::B2 {
            wanted,
            given: header.height,
        });
    }
    if header.time <= tip.time {
        return Some(BlockRefusal::B3 {
            tip_time: tip.time,
            given: header.time,
        });
    }
    if header.version != 1 {
        return Some(BlockRefusal::B4 {
            given: header.version,
        });
    }
    None
}

// The verdict on the tip's next program, on the arguments of a block of this id. Its own program is lent to the context
// of the run, and comes back where there is a verdict.
fn verdict_after<C: SigCheck>(
    alloc: Global,
    sigs: &C,
    tip: &Header,
    id: Id,
    block: &mut Block,
) -> Result<Verdict, NoMemory>
    requires time { block.old.header.time < 2 ^ 63 }
    ensures verdict { (hash : Hash)
        → id ≡ header_id hash block.old.header
        → IfOk result (HasVerdictAfter hash (C.good_of sigs.now) tip.now block.old.header block.old.args) }
    ensures same { OnOk result (block.new ≡ block.old) }
{
    let next_program = replace(&mut block.header.next_program, Bytes::new(alloc));
    let context = Context::Block(BlockContext {
        block_id: id,
        program: tip.next_program.copy(alloc)?,
        next_program,
        time: block.header.time,
    });
    let program = tip.next_program.as_slice();
    let verdict = verify(alloc, &context, sigs, program, &block.args, RUN_LIMIT)?;
    block.header.next_program = own_program(alloc, context);
    Ok(verdict)
}

// The program of its own that a block lent to its context.
fn own_program(alloc: Global, context: Context) -> Bytes
    ensures { (seen : BlockContext) → context ≡ Context.Block seen → result ≡ seen.next_program }
{
    match context {
        Context::Block(seen) => seen.next_program,
        _ => Bytes::new(alloc),
    }
}
