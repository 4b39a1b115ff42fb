//! Ids of a transaction and of what it has.
ghost use Rattle.std.specs.Prelude.{◌≡◌, ◌<◌, ◌^◌, ◌++◌, [], length, map, slice_get, Some, IfOk, OnOk};
ghost use Rattle.std.specs.List.{concat};
ghost use Rattle.wire.specs.Spelling.{varint};
ghost use Rattle.data_model.specs.Transaction.{IsInput, IsTx};
ghost use Rattle.entry_ids.specs.Ids.{AreIds, input_ids, names, input_data, value_of, mux_id};
ghost use Rattle.entry_ids.specs.Ids.{results_of, result_ids, result_data, tx_id};

use crate::Names;
use crate::entry::entry_id;
use crate::input::ids_of_input;
use crate::lists::{InputLists, ResultLists};
use crate::output::ids_of_result;
use data_model::{Ids, Input, Tx};
use keyed::IdHash;
use std::alloc::Global;
use wire::{Id, NoMemory, Writer};

/// The ids of a transaction's entries, and the hashes of its data.
#[derive(Debug, Drop)]
pub struct TxIds {
    pub tx: Id,
    pub mux: Id,
    /// The hash of the transaction's data.
    pub data_hash: Id,
    /// The ids of the inputs' entries, in order.
    pub inputs: Ids,
    /// What the inputs name, in order.
    pub named: Names,
    /// The hashes of the inputs' data, in order.
    pub input_data: Ids,
    /// The ids of the outputs and retirements, in order.
    pub results: Ids,
    /// The hashes of the data of the outputs and retirements, in order.
    pub result_data: Ids,
}

/// The ids of a transaction's entries and the hashes of its data, formed together. It hashes each string once: the data
/// of the transaction, of its inputs and of its outputs; and of each entry, nonce and spent output the body, and then
/// the type with that hash. So the bytes that are hashed are linear in those of the transaction's spelling. The
/// arguments of the inputs are not hashed, nor are the programs and definitions of issuances, which the asset names.
pub fn tx_ids<H: IdHash>(alloc: Global, hash: &H, tx: &Tx) -> Result<TxIds, NoMemory>
    requires { IsTx tx.now }
    ensures { IfOk result (AreIds (H.hash_of hash.now) tx.now) }
{
    let mut of_inputs = InputLists::with_room(alloc, tx.inputs.len())?;
    let mut of_results = ResultLists::with_room(alloc, tx.outputs.len())?;
    let own = add_ids(alloc, hash, tx, &mut of_inputs, &mut of_results)?;
    Ok(join_ids(own, of_inputs, of_results))
}

/// The id of a transaction.
pub fn tx_id<H: IdHash>(alloc: Global, hash: &H, tx: &Tx) -> Result<Id, NoMemory>
    requires { IsTx tx.now }
    ensures { IfOk result (λ id. id ≡ tx_id (H.hash_of hash.now) tx.now) }
{
    Ok(tx_ids(alloc, hash, tx)?.tx)
}

/// The id of a transaction's mux, in which the values of its inputs come together.
pub fn mux_id<H: IdHash>(alloc: Global, hash: &H, tx: &Tx) -> Result<Id, NoMemory>
    requires { IsTx tx.now }
    ensures { IfOk result (λ id. id ≡ mux_id (H.hash_of hash.now) tx.now) }
{
    let mut lists = InputLists::with_room(alloc, tx.inputs.len())?;
    let mut body = Writer::new(alloc)?;
    let mut text = Writer::new(alloc)?;
    add_inputs(hash, tx, &mut lists, &mut body, &mut text)
}

/// The id of the entry of the k-th input, counted from 0.
pub fn input_id<H: IdHash>(alloc: Global, hash: &H, tx: &Tx, k: u64) -> Result<Id, NoMemory>
    requires tx { IsTx tx.now }
    requires there { k < length tx.now.inputs }
    ensures { IfOk result (λ id. slice_get (input_ids (H.hash_of hash.now) tx.now) k ≡ Some id) }
{
    let mut text = Writer::new(alloc)?;
    let ids = ids_of_input(hash, tx, &tx.inputs.as_slice()[k as usize], &mut text)?;
    Ok(ids.entry)
}

/// The id of the k-th output or retirement, counted from 0.
pub fn result_id<H: IdHash>(alloc: Global, hash: &H, tx: &Tx, k: u64) -> Result<Id, NoMemory>
    requires tx { IsTx tx.now }
    requires there { k < length tx.now.outputs }
    ensures { IfOk result (λ id. slice_get (result_ids (H.hash_of hash.now) tx.now) k ≡ Some id) }
{
    let mux = mux_id(alloc, hash, tx)?;
    let mut text = Writer::new(alloc)?;
    let ids = ids_of_result(hash, &mux, k, &tx.outputs.as_slice()[k as usize], &mut text)?;
    Ok(ids.entry)
}

// What is formed for a transaction itself.
#[derive(Clone, Copy)]
struct OwnIds {
    tx: Id,
    mux: Id,
    data_hash: Id,
}

// All of it as one.
fn join_ids(own: OwnIds, of_inputs: InputLists, of_results: ResultLists) -> TxIds
    ensures { result ≡ record {
      tx = own.tx;
      mux = own.mux;
      data_hash = own.data_hash;
      inputs = of_inputs.entries;
      named = of_inputs.named;
      input_data = of_inputs.data_hashes;
      results = of_results.entries;
      result_data = of_results.data_hashes;
    } }
{
    let OwnIds { tx, mux, data_hash } = own;
    let InputLists {
        entries: inputs,
        named,
        data_hashes: input_data,
    } = of_inputs;
    let ResultLists {
        entries: results,
        data_hashes: result_data,
    } = of_results;
    TxIds {
        tx,
        mux,
        data_hash,
        inputs,
        named,
        input_data,
        results,
        result_data,
    }
}

// Adds what is formed for the inputs and for the outputs and retirements, and gives what is formed for the transaction.
fn add_ids<H: IdHash>(
    alloc: Global,
    hash: &H,
    tx: &Tx,
    of_inputs: &mut InputLists,
    of_results: &mut ResultLists,
) -> Result<OwnIds, NoMemory>
    requires tx { IsTx tx.now }
    requires no_entries { of_inputs.old.entries ≡ [] }
    requires no_names { of_inputs.old.named ≡ [] }
    requires no_hashes { of_inputs.old.data_hashes ≡ [] }
    requires no_results { of_results.old.entries ≡ [] }
    requires no_result_hashes { of_results.old.data_hashes ≡ [] }
    ensures inputs { OnOk result (of_inputs.new.entries ≡ input_ids (H.hash_of hash.now) tx.now) }
    ensures named { OnOk result (of_inputs.new.named ≡ map (names (H.hash_of hash.now) tx.now) tx.now.inputs) }
    ensures input_data { OnOk result
        (of_inputs.new.data_hashes ≡ map (input_data (H.hash_of hash.now)) tx.now.inputs) }
    ensures results { OnOk result (of_results.new.entries ≡ result_ids (H.hash_of hash.now) tx.now) }
    ensures result_data { OnOk result
        (of_results.new.data_hashes ≡ map (result_data (H.hash_of hash.now)) tx.now.outputs) }
    ensures mux { IfOk result (λ own. own.mux ≡ mux_id (H.hash_of hash.now) tx.now) }
    ensures tx { IfOk result (λ own. own.tx ≡ tx_id (H.hash_of hash.now) tx.now) }
    ensures data_hash { IfOk result (λ own. own.data_hash ≡ H.hash_of hash.now tx.now.refdata) }
{
    let data_hash = hash.hash(tx.refdata.as_slice());
    let mut body = Writer::new(alloc)?;
    let mut text = Writer::new(alloc)?;
    let mux = add_inputs(hash, tx, of_inputs, &mut body, &mut text)?;
    put_results(hash, tx, &mux, of_results, &mut body, &mut text)?;
    let tx = end(hash, tx, &data_hash, &mut body)?;
    Ok(OwnIds { tx, mux, data_hash })
}

// Adds what is formed for the inputs, and gives the id of the mux.
fn add_inputs<H: IdHash>(
    hash: &H,
    tx: &Tx,
    lists: &mut InputLists,
    body: &mut Writer,
    text: &mut Writer,
) -> Result<Id, NoMemory>
    requires tx { IsTx tx.now }
    requires no_entries { lists.old.entries ≡ [] }
    requires no_names { lists.old.named ≡ [] }
    requires no_hashes { lists.old.data_hashes ≡ [] }
    ensures entries { OnOk result (lists.new.entries ≡ input_ids (H.hash_of hash.now) tx.now) }
    ensures named { OnOk result (lists.new.named ≡ map (names (H.hash_of hash.now) tx.now) tx.now.inputs) }
    ensures data_hashes { OnOk result
        (lists.new.data_hashes ≡ map (input_data (H.hash_of hash.now)) tx.now.inputs) }
    ensures mux { IfOk result (λ id. id ≡ mux_id (H.hash_of hash.now) tx.now) }
{
    let inputs = tx.inputs.as_slice();
    body.clear();
    body.number(inputs.len() as u64)?;
    for input in inputs {
        let ids = ids_of_input(hash, tx, input, text)?;
        body.raw(&ids.entry)?;
        put_value(input, body)?;
        lists.push(ids)?;
    }
    Ok(entry_id(hash, b"mux1", body.as_slice()))
}

// Adds the value that an input brings.
fn put_value(input: &Input, body: &mut Writer) -> Result<(), NoMemory>
    requires { IsInput input.now }
    ensures { OnOk result (body.new ≡ body.old ++ value_of input.now) }
{
    match input {
        Input::Issue(issue) => put_units(&issue.asset, issue.amount, body),
        Input::Spend(spend) => put_units(&spend.from.asset, spend.from.amount, body),
    }
}

// Adds so many units of an asset.
fn put_units(asset: &Id, amount: u64, body: &mut Writer) -> Result<(), NoMemory>
    requires { amount < 2 ^ 63 }
    ensures { OnOk result (body.new ≡ body.old ++ (asset.now ++ varint amount)) }
{
    body.raw(asset)?;
    body.number(amount)
}

// Writes the front of a transaction's body, and adds what is formed for the outputs and retirements, whose ids stand in
// it.
fn put_results<H: IdHash>(
    hash: &H,
    tx: &Tx,
    mux: &Id,
    lists: &mut ResultLists,
    body: &mut Writer,
    text: &mut Writer,
) -> Result<(), NoMemory>
    requires tx { IsTx tx.now }
    requires no_entries { lists.old.entries ≡ [] }
    requires no_hashes { lists.old.data_hashes ≡ [] }
    ensures entries { OnOk result
        (lists.new.entries ≡ results_of (H.hash_of hash.now) mux.now tx.now.outputs) }
    ensures data_hashes { OnOk result
        (lists.new.data_hashes ≡ map (result_data (H.hash_of hash.now)) tx.now.outputs) }
    ensures body { let ids = results_of (H.hash_of hash.now) mux.now tx.now.outputs in
        OnOk result (body.new ≡ varint tx.now.version ++ varint (length tx.now.outputs) ++ concat ids) }
{
    let outputs = tx.outputs.as_slice();
    body.clear();
    body.number(tx.version)?;
    body.number(outputs.len() as u64)?;
    for (position, output) in outputs.iter().enumerate() {
        let ids = ids_of_result(hash, mux, position as u64, output, text)?;
        body.raw(&ids.entry)?;
        lists.push(ids)?;
    }
    Ok(())
}

// Ends a transaction's body after the ids of its outputs and retirements, and gives the transaction's id.
fn end<H: IdHash>(hash: &H, tx: &Tx, data_hash: &Id, body: &mut Writer) -> Result<Id, NoMemory>
    requires tx { IsTx tx.now }
    requires data_hash { data_hash.now ≡ H.hash_of hash.now tx.now.refdata }
    requires front { let ids = result_ids (H.hash_of hash.now) tx.now in
        body.old ≡ varint tx.now.version ++ varint (length tx.now.outputs) ++ concat ids }
    ensures { IfOk result (λ id. id ≡ tx_id (H.hash_of hash.now) tx.now) }
{
    body.raw(data_hash)?;
    body.number(tx.mintime)?;
    body.number(tx.maxtime)?;
    Ok(entry_id(hash, b"txheader", body.as_slice()))
}
