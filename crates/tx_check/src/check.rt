//! Whether a transaction is valid.
ghost use Rattle.std.specs.Prelude.{◌≡◌, ◌<◌, ◌^◌, IfOk, IfErr, OnOk};
ghost use Rattle.wire.specs.Tables.{First};
ghost use Rattle.data_model.specs.Transaction.{IsTx};
ghost use Rattle.entry_ids.specs.Ids.{AreIds};
ghost use Rattle.tx_check.specs.FirstPlace.{Found};
ghost use Rattle.tx_check.specs.Table.{HasFailing, Refusal, Refuses, TxValid};

use crate::assets::asset_refusal;
use crate::names::name_refusal;
use crate::programs::first_failing;
use crate::shown::state_refusal;
use crate::times::time_refusal;
use crate::{TxFault, TxRefusal, View};
use data_model::Tx;
use entry_ids::{TxIds, tx_ids};
use keyed::{IdHash, SigCheck};
use std::alloc::Global;
use wire::NoMemory;

/// Whether a block of this time may hold a transaction after what the chain shows. Its ids are formed once, and each
/// input's program is run at most once.
pub fn check_tx<V: View, H: IdHash, C: SigCheck>(
    alloc: Global,
    view: &V,
    hash: &H,
    sigs: &C,
    time: u64,
    tx: &Tx,
) -> Result<(), TxFault>
    requires tx { IsTx tx.now }
    requires time { time < 2 ^ 63 }
    ensures valid { OnOk result
        (TxValid (H.hash_of hash.now) (C.good_of sigs.now) (V.state_of view.now) time tx.now) }
    ensures refused { IfErr result
        (Refuses (H.hash_of hash.now) (C.good_of sigs.now) (V.state_of view.now) time tx.now) }
{
    let ids = tx_ids(alloc, hash, tx)?;
    check_with_ids(alloc, view, hash, sigs, time, tx, &ids)
}

/// The same, by the ids of the transaction.
pub fn check_with_ids<V: View, H: IdHash, C: SigCheck>(
    alloc: Global,
    view: &V,
    hash: &H,
    sigs: &C,
    time: u64,
    tx: &Tx,
    ids: &TxIds,
) -> Result<(), TxFault>
    requires tx { IsTx tx.now }
    requires time { time < 2 ^ 63 }
    requires ids { AreIds (H.hash_of hash.now) tx.now ids.now }
    ensures valid { OnOk result
        (TxValid (H.hash_of hash.now) (C.good_of sigs.now) (V.state_of view.now) time tx.now) }
    ensures refused { IfErr result
        (Refuses (H.hash_of hash.now) (C.good_of sigs.now) (V.state_of view.now) time tx.now) }
{
    match first_cause(alloc, view, hash, sigs, time, tx, ids)? {
        Some(cause) => Err(TxFault::Refused(cause)),
        None => Ok(()),
    }
}

// The first cause of the table that holds.
fn first_cause<V: View, H: IdHash, C: SigCheck>(
    alloc: Global,
    view: &V,
    hash: &H,
    sigs: &C,
    time: u64,
    tx: &Tx,
    ids: &TxIds,
) -> Result<Option<TxRefusal>, NoMemory>
    requires tx { IsTx tx.now }
    requires ids { AreIds (H.hash_of hash.now) tx.now ids.now }
    ensures { IfOk result
        (Refusal (H.hash_of hash.now) (C.good_of sigs.now) (V.state_of view.now) time tx.now) }
{
    if let Some(cause) = time_refusal(time, tx) {
        return Ok(Some(cause));
    }
    if let Some(cause) = name_refusal(tx, ids.named.as_slice()) {
        return Ok(Some(cause));
    }
    if let Some(cause) = asset_refusal(alloc, hash, &view.initial(), tx)? {
        return Ok(Some(cause));
    }
    if let Some(cause) = state_refusal(view, tx, ids) {
        return Ok(Some(cause));
    }
    program_refusal(alloc, hash, sigs, tx, ids)
}

// X14.
fn program_refusal<H: IdHash, C: SigCheck>(
    alloc: Global,
    hash: &H,
    sigs: &C,
    tx: &Tx,
    ids: &TxIds,
) -> Result<Option<TxRefusal>, NoMemory>
    requires tx { IsTx tx.now }
    requires ids { AreIds (H.hash_of hash.now) tx.now ids.now }
    ensures { IfOk result (Found (HasFailing (H.hash_of hash.now) (C.good_of sigs.now) tx.now)) }
{
    match first_failing(alloc, hash, sigs, tx, ids) {
        Ok(Some((input, kind, at))) => Ok(Some(TxRefusal::X14 { input, kind, at })),
        Ok(None) => Ok(None),
        Err(_) => Err(NoMemory),
    }
}
