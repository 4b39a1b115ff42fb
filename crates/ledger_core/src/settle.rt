//! A ledger with a block more.
ghost use Rattle.std.specs.Prelude.{◌≡◌, ◌≤◌, [], ◌∷◌, ◌++◌, OnOk, OnErr};
ghost use Rattle.entry_ids.specs.Entry.{header_id};
ghost use Rattle.keyed.specs.Functions.{Hash, Check};
ghost use Rattle.ledger_core.specs.Chain.{StandsFor};
ghost use Rattle.ledger_core.specs.LedgerModel.{IsSpellable};
ghost use Rattle.ledger_core.specs.Offering.{AreChanges};
ghost use Rattle.ledger_core.specs.Refusal.{ValidNext};
ghost use Rattle.ledger_core.specs.Unspent.{live_at};

use crate::unfinished::{Changes, keep_unspent};
use crate::{Ledger, LiveNonce};
use data_model::Block;
use wire::{Id, NoMemory};

impl Ledger {
    // Adds a block of this id, whose transactions change this. All memory is taken first: where it runs out, nothing
    // has changed.
    pub(crate) fn settle(&mut self, block: Block, id: Id, changes: Changes) -> Result<(), NoMemory>
        requires within { IsSpellable block }
        ensures added { OnOk result (self.new.blocks ≡ self.old.blocks ++ block ∷ []) }
        ensures unchanged { OnErr result (self.new ≡ self.old) }
        ensures stands { (hash : Hash) (check : Check)
            → StandsFor hash check self.old
            → ValidNext hash check self.old.blocks block
            → id ≡ header_id hash block.header
            → AreChanges hash block.txs changes
            → OnOk result (StandsFor hash check self.new) }
    {
        let mut changes = changes;
        let time = block.header.time;
        self.unspent.reserve(changes.made.len())?;
        self.live.reserve(changes.used.len())?;
        self.blocks.push(block)?;
        self.tip_id = id;
        keep_unspent(&mut self.unspent, changes.spent.as_slice());
        self.unspent.append(&mut changes.made)?;
        self.live.append(&mut changes.used)?;
        keep_live(&mut self.live, time);
        Ok(())
    }
}

// Takes out the nonces whose maxtime is below this time.
fn keep_live(nonces: &mut Vec<LiveNonce>, time: u64)
    ensures { nonces.new.items ≡ live_at time nonces.old.items }
{
    nonces.retain(|nonce| time <= nonce.maxtime);
}
