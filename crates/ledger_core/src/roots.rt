//! The roots that a block has to name.
ghost use Rattle.std.specs.Prelude.{◌≡◌, ◌↔◌, ◌++◌, ℕ, List, Contains, length, map, IfOk, OnOk};
ghost use Rattle.data_model.specs.declared.tx.Tx.{Tx};
ghost use Rattle.entry_ids.specs.Ids.{tx_id};
ghost use Rattle.std.specs.List.{All};
ghost use Rattle.merkle.specs.Roots.{list_root, set_root, IsIncreasing};
ghost use Rattle.merkle.specs.Laws.{IsId};
ghost use Rattle.ledger_core.specs.Blocks.{txs_of};
ghost use Rattle.ledger_core.specs.Roots.{output_ids, root_of_none};
ghost use Rattle.ledger_core.specs.Unspent.{left_of, unspent_after};
ghost use Rattle.ledger_core.specs.Offering.{AreAllIds, AreChanges};

use crate::unfinished::{Changes, is_among};
use crate::{Ledger, Unspent};
use entry_ids::TxIds;
use keyed::IdHash;
use merkle::laws::set_roots;
use merkle::{list_root, set_root};
use std::alloc::Global;
use wire::{Id, NoMemory};

impl Ledger {
    // The root of the ids of transactions, which are among these ids.
    pub(crate) fn root_of_txs<H: IdHash>(
        &self,
        alloc: Global,
        hash: &H,
        ids: &[TxIds],
    ) -> Result<Id, NoMemory>
        requires { self.now.empty_root ≡ root_of_none (H.hash_of hash.now) }
        ensures { (txs : List Tx)
            → AreAllIds (H.hash_of hash.now) txs ids.now
            → IfOk result
            (λ root. root ≡ list_root (H.hash_of hash.now) (map (tx_id (H.hash_of hash.now)) txs)) }
    {
        if ids.is_empty() {
            return Ok(self.empty_root);
        }
        let mut tx_ids = Vec::with_capacity(alloc, ids.len())?;
        for one in ids {
            tx_ids.push(one.tx)?;
        }
        Ok(list_root(hash, tx_ids.as_slice()))
    }

    // The root of the ids of what is unspent after these changes.
    pub(crate) fn root_after<H: IdHash>(
        &self,
        alloc: Global,
        hash: &H,
        changes: &Changes,
    ) -> Result<Id, NoMemory>
        requires root { self.now.empty_root ≡ root_of_none (H.hash_of hash.now) }
        requires unspent { self.now.unspent ≡ unspent_after (H.hash_of hash.now) (txs_of self.now.blocks) }
        ensures { (txs : List Tx)
            → AreChanges (H.hash_of hash.now) txs changes.now
            → let unspent = unspent_after (H.hash_of hash.now) (txs_of self.now.blocks ++ txs) in
            IfOk result (λ root. root ≡ set_root (H.hash_of hash.now) (output_ids unspent)) }
    {
        set_roots();
        let mut ids = Vec::with_capacity(alloc, self.unspent.len() + changes.made.len())?;
        add_ids(&mut ids, self.unspent.as_slice(), changes.spent.as_slice())?;
        add_ids(&mut ids, changes.made.as_slice(), &[])?;
        if ids.is_empty() {
            return Ok(self.empty_root);
        }
        put_in_order(&mut ids);
        Ok(set_root(hash, ids.as_slice()))
    }
}

// Adds the ids of those outputs that are not spent.
pub(crate) fn add_ids(ids: &mut Vec<Id>, outputs: &[Unspent], spent: &[Id]) -> Result<(), NoMemory>
    ensures items { OnOk result (ids.new.items ≡ ids.old.items ++ output_ids (left_of spent.now outputs.now)) }
    ensures ids { All IsId ids.old.items → OnOk result (All IsId ids.new.items) }
{
    for output in outputs {
        is_id(&output.id);
        if !is_among(spent, &output.id) {
            ids.push(output.id)?;
        }
    }
    Ok(())
}

// 32 bytes are an id. It does nothing when it runs.
fn is_id(_bytes: &[u8])
    requires { length _bytes.now ≡ 32 }
    ensures { IsId _bytes.now }
{}

// Puts ids in order, each once.
pub(crate) fn put_in_order(ids: &mut Vec<Id>)
    ensures increasing { IsIncreasing ids.new.items }
    ensures members { (id : List ℕ) → Contains ids.new.items id ↔ Contains ids.old.items id }
{
    ids.sort_unstable();
    ids.dedup();
}
