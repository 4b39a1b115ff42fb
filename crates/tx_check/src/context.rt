//! Contexts of inputs: what their programs may ask for.
ghost use Rattle.std.specs.Prelude.{◌≡◌, ◌<◌, ◌^◌, List, map, length, slice_get, Some, Option, IfOk};
ghost use Rattle.data_model.specs.Transaction.{IsTx};
ghost use Rattle.data_model.specs.declared.input.Input.{Input};
ghost use Rattle.keyed.specs.Functions.{Hash};
ghost use Rattle.entry_ids.specs.Ids.{AreIds, input_data, input_id};
ghost use Rattle.vm_run.specs.Ids.{HasIds};
ghost use Rattle.vm_run.specs.Row.{NumbersFit};
ghost use Rattle.tx_check.specs.Parts.{named_output, spent_id};
ghost use Rattle.tx_check.specs.Contexts.{IsContext, last_time, seen, seen_outputs};

use crate::parts::{amount_in, asset_in, program_in};
use data_model::{Output, Tx};
use entry_ids::{Named, TxIds, sig_hash, tx_ids};
use keyed::IdHash;
use std::alloc::Global;
use vm_run::{Context, NoMemory, OutSeen, Outs, TxContext};
use wire::{Bytes, Id, MAX_NUMBER};

/// What the program of the k-th input may ask for, counted from 0: the input's value and program, the times of the
/// transaction, hashes of data, ids, and all outputs in order. A transaction with no greatest time is seen with
/// 2^63 - 1.
pub fn context_of<H: IdHash>(alloc: Global, hash: &H, tx: &Tx, k: u64) -> Result<Context, NoMemory>
    requires tx { IsTx tx.now }
    requires there { k < length tx.now.inputs }
    ensures context { IfOk result (IsContext (H.hash_of hash.now) tx.now k) }
    ensures numbers { IfOk result NumbersFit }
    ensures ids { IfOk result HasIds }
{
    let ids = tx_ids(alloc, hash, tx)?;
    let outs = seen_outputs(alloc, tx, &ids)?;
    context_with(alloc, hash, tx, &ids, k, outs)
}

// All outputs of a transaction as programs see them, by what was formed for the transaction.
pub(crate) fn seen_outputs(alloc: Global, tx: &Tx, ids: &TxIds) -> Result<Outs, NoMemory>
    requires { length ids.now.result_data ≡ length tx.now.outputs }
    ensures { (hash : Hash)
        → AreIds hash tx.now ids.now
        → IfOk result (λ outs. outs ≡ seen_outputs hash tx.now) }
{
    let outputs = tx.outputs.as_slice();
    let data_hashes = ids.result_data.as_slice();
    let mut outs = Outs::new(alloc);
    outs.reserve(outputs.len())?;
    for (k, output) in outputs.iter().enumerate() {
        outs.push(seen(alloc, &data_hashes[k], output)?)?;
    }
    Ok(outs)
}

// An output as programs see it, with the hash of its data.
#[tactic(auto, unfolding(crate::specs::Contexts::seen))]
fn seen(alloc: Global, data_hash: &Id, output: &Output) -> Result<OutSeen, NoMemory>
    ensures { IfOk result (λ out. out ≡ seen data_hash.now output.now) }
{
    match output {
        Output::Control(control) => Ok(OutSeen {
            retired: false,
            asset: control.asset,
            amount: control.amount,
            program: control.program.copy(alloc)?,
            data_hash: *data_hash,
        }),
        Output::Retire(retire) => Ok(OutSeen {
            retired: true,
            asset: retire.asset,
            amount: retire.amount,
            program: Bytes::new(alloc),
            data_hash: *data_hash,
        }),
    }
}

// What the program of the k-th input may ask for, by what was formed for the transaction. The outputs become a part of
// it.
pub(crate) fn context_with<H: IdHash>(
    alloc: Global,
    hash: &H,
    tx: &Tx,
    ids: &TxIds,
    k: u64,
    outs: Outs,
) -> Result<Context, NoMemory>
    requires tx { IsTx tx.now }
    requires ids { AreIds (H.hash_of hash.now) tx.now ids.now }
    requires there { k < length tx.now.inputs }
    requires outs { outs ≡ seen_outputs (H.hash_of hash.now) tx.now }
    ensures { IfOk result (IsContext (H.hash_of hash.now) tx.now k) }
{
    let input = &tx.inputs.as_slice()[k as usize];
    let formed = formed_for(tx, ids, k as usize);
    let Formed {
        entry_id,
        entry_data_hash,
        output_id,
    } = formed;
    let sig_hash = sig_hash(alloc, hash, &entry_id, &ids.tx)?;
    let program = program_in(input).copy(alloc)?;
    let asset = *asset_in(input);
    let data_hash = ids.data_hash;
    Ok(Context::Tx(TxContext {
        asset,
        amount: amount_in(input),
        program,
        mintime: tx.mintime,
        maxtime: last_time(tx.maxtime),
        data_hash,
        entry_data_hash,
        index: k,
        entry_id,
        output_id,
        sig_hash,
        outs,
    }))
}

// What was formed for an input.
#[derive(Clone, Copy)]
struct Formed {
    entry_id: Id,
    entry_data_hash: Id,
    output_id: Option<Id>,
}

// What was formed for the input at a place.
fn formed_for(tx: &Tx, ids: &TxIds, place: usize) -> Formed
    requires ids { (hash : Hash) × AreIds hash tx.now ids.now }
    requires there { place < length tx.now.inputs }
    ensures entry { (hash : Hash) (input : Input)
        → AreIds hash tx.now ids.now
        → slice_get tx.now.inputs place ≡ Some input
        → result.entry_id ≡ input_id hash tx.now input }
    ensures data { (hash : Hash) (input : Input)
        → AreIds hash tx.now ids.now
        → slice_get tx.now.inputs place ≡ Some input
        → result.entry_data_hash ≡ input_data hash input }
    ensures output { (hash : Hash) (input : Input)
        → AreIds hash tx.now ids.now
        → slice_get tx.now.inputs place ≡ Some input
        → result.output_id ≡ spent_id hash input }
{
    let entry_id = ids.inputs.as_slice()[place];
    let entry_data_hash = ids.input_data.as_slice()[place];
    let output_id = named_output(&ids.named.as_slice()[place]);
    Formed {
        entry_id,
        entry_data_hash,
        output_id,
    }
}

// The id of the output that is named, if one is.
fn named_output(named: &Named) -> Option<Id>
    ensures { result ≡ named_output named.now }
{
    match named {
        Named::Output(id) => Some(*id),
        Named::Nothing | Named::Nonce(_) => None,
    }
}

// The greatest time of a block that may hold a transaction with this maxtime.
fn last_time(maxtime: u64) -> u64
    ensures { result ≡ last_time maxtime }
{
    if maxtime == 0 { MAX_NUMBER } else { maxtime }
}
