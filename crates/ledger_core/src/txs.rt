//! The transactions of an offered block, one after the other.
ghost use Rattle.std.specs.Prelude.{◌<◌, ◌^◌, IfOk, IfErr, OnOk};
ghost use Rattle.std.specs.List.{AllByRecursion};
ghost use Rattle.wire.specs.Tables.{HoldsNot};
ghost use Rattle.data_model.specs.Transaction.{IsTx};
ghost use Rattle.ledger_core.specs.Chain.{StandsFor};
ghost use Rattle.ledger_core.specs.Refusal.{HasRefusedTx};
ghost use Rattle.ledger_core.specs.Offering.{AreAllIds, AreChanges, RefusesAs, RefusedAt};

use crate::shown::Unfinished;
use crate::unfinished::Changes;
use crate::{BlockRefusal, Ledger, OfferFault};
use data_model::Tx;
use entry_ids::{TxIds, tx_ids};
use keyed::{IdHash, SigCheck};
use std::alloc::Global;
use tx_check::laws::one_refusal;
use tx_check::{TxFault, check_with_ids};
use wire::NoMemory;

// The ids of each of these transactions.
pub(crate) fn all_ids<H: IdHash>(
    alloc: Global,
    hash: &H,
    txs: &[Tx],
) -> Result<Vec<TxIds>, NoMemory>
    requires { AllByRecursion IsTx txs.now }
    ensures { IfOk result (λ ids. AreAllIds (H.hash_of hash.now) txs.now ids.items) }
{
    let mut ids = Vec::with_capacity(alloc, txs.len())?;
    for tx in txs {
        ids.push(tx_ids(alloc, hash, tx)?)?;
    }
    Ok(ids)
}

impl Ledger {
    // What the transactions of a block of this time change, by their ids, or the first that is refused.
    pub(crate) fn changes_of<H: IdHash, C: SigCheck>(
        &self,
        alloc: Global,
        hash: &H,
        sigs: &C,
        time: u64,
        txs: &[Tx],
        ids: &[TxIds],
    ) -> Result<Changes, OfferFault>
        requires stands { StandsFor (H.hash_of hash.now) (C.good_of sigs.now) self.now }
        requires time { time < 2 ^ 63 }
        requires txs { AllByRecursion IsTx txs.now }
        requires ids { AreAllIds (H.hash_of hash.now) txs.now ids.now }
        ensures valid { OnOk result
            (HoldsNot (HasRefusedTx (H.hash_of hash.now) (C.good_of sigs.now) self.now.blocks time txs.now)) }
        ensures changes { IfOk result (AreChanges (H.hash_of hash.now) txs.now) }
        ensures refused { IfErr result (RefusesAs
            (HasRefusedTx (H.hash_of hash.now) (C.good_of sigs.now) self.now.blocks time txs.now)) }
    {
        one_refusal();
        let mut changes = Changes::new(alloc);
        for (k, tx) in txs.iter().enumerate() {
            let view = Unfinished {
                ledger: self,
                changes: &changes,
            };
            let checked = check_with_ids(alloc, &view, hash, sigs, time, tx, &ids[k]);
            refused_at(checked, k as u64)?;
            changes.add(alloc, tx, &ids[k])?;
        }
        Ok(changes)
    }
}

// The refusal of a block for that of its transaction at a place.
fn refused_at(checked: Result<(), TxFault>, place: u64) -> Result<(), OfferFault>
    ensures { RefusedAt checked place result }
{
    match checked {
        Ok(()) => Ok(()),
        Err(TxFault::Refused(refusal)) => {
            Err(OfferFault::Refused(BlockRefusal::B8 { place, refusal }))
        }
        Err(TxFault::NoMemory) => Err(OfferFault::NoMemory),
    }
}
