//! X9 and X10: assets and their sums.
ghost use Rattle.std.specs.Prelude.{◌≡◌, ◌↔◌, ◌⊎◌, ◌≤◌, IsTrue, IfOk, Contains, map, take, length};
ghost use Rattle.wire.specs.Tables.{First, HoldsNot};
ghost use Rattle.tx_check.specs.FirstPlace.{AtFirst, Found};
ghost use Rattle.tx_check.specs.Parts.{asset_in};
ghost use Rattle.tx_check.specs.Table.{IssuesAnother, HasAnotherAsset, asset_out, amount_out, sum_in, sum_out};
ghost use Rattle.tx_check.specs.Table.{IsUnbalanced, HasUnbalanced, asset_causes};

use crate::TxRefusal;
use crate::parts::{amount_in, asset_in};
use data_model::{Input, Output, Tx};
use entry_ids::asset_id;
use keyed::IdHash;
use std::alloc::Global;
use wire::{Id, NoMemory};

// The first of X9 and X10 that holds on a chain with this initial block.
pub(crate) fn asset_refusal<H: IdHash>(
    alloc: Global,
    hash: &H,
    initial_id: &Id,
    tx: &Tx,
) -> Result<Option<TxRefusal>, NoMemory>
    ensures { IfOk result (First (asset_causes (H.hash_of hash.now) initial_id.now tx.now)) }
{
    if let Some(cause) = another_asset(alloc, hash, initial_id, tx)? {
        return Ok(Some(cause));
    }
    Ok(unbalanced(tx))
}

// X9.
fn another_asset<H: IdHash>(
    alloc: Global,
    hash: &H,
    initial_id: &Id,
    tx: &Tx,
) -> Result<Option<TxRefusal>, NoMemory>
    ensures { IfOk result (Found (HasAnotherAsset (H.hash_of hash.now) initial_id.now tx.now)) }
{
    let inputs = tx.inputs.as_slice();
    for (k, input) in inputs.iter().enumerate() {
        if issues_another(alloc, hash, initial_id, input)? {
            return Ok(Some(TxRefusal::X9 { input: k as u64 }));
        }
    }
    Ok(None)
}

// An issuance whose asset is not the id of its program and its definition.
fn issues_another<H: IdHash>(
    alloc: Global,
    hash: &H,
    initial_id: &Id,
    input: &Input,
) -> Result<bool, NoMemory>
    ensures { IfOk result (λ is. IsTrue is ↔ IssuesAnother (H.hash_of hash.now) initial_id.now input.now) }
{
    match input {
        Input::Issue(issue) => {
            let program = issue.program.as_slice();
            let definition = issue.definition.as_slice();
            let id = asset_id(alloc, hash, initial_id, program, definition)?;
            Ok(issue.asset != id)
        }
        Input::Spend(_) => Ok(false),
    }
}

// X10. An asset is summed where it appears first, in the inputs or else in the outputs, and nowhere else.
fn unbalanced(tx: &Tx) -> Option<TxRefusal>
    ensures { Found (HasUnbalanced tx.now) result }
{
    if let Some(cause) = unbalanced_in(tx) {
        return Some(cause);
    }
    unbalanced_out(tx)
}

// The first asset of the inputs that is unbalanced.
fn unbalanced_in(tx: &Tx) -> Option<TxRefusal>
    ensures { Found (AtFirst (λ _ asset. IsUnbalanced tx.now asset) (map asset_in tx.now.inputs)) result }
{
    let inputs = tx.inputs.as_slice();
    for (k, input) in inputs.iter().enumerate() {
        let asset = asset_in(input);
        if appears_in(&inputs[..k], asset) {
            continue;
        }
        if let Some(cause) = sums_of(asset, tx) {
            return Some(cause);
        }
    }
    None
}

// The first asset of the outputs that is unbalanced, where none of the inputs is.
fn unbalanced_out(tx: &Tx) -> Option<TxRefusal>
    requires { HoldsNot (AtFirst (λ _ asset. IsUnbalanced tx.now asset) (map asset_in tx.now.inputs)) }
    ensures { Found (AtFirst (λ _ asset. IsUnbalanced tx.now asset) (map asset_out tx.now.outputs)) result }
{
    let outputs = tx.outputs.as_slice();
    for (k, output) in outputs.iter().enumerate() {
        let asset = asset_out(output);
        if appears(tx, k, asset) {
            continue;
        }
        if let Some(cause) = sums_of(asset, tx) {
            return Some(cause);
        }
    }
    None
}

// An input is of this asset, or one of the first so many outputs.
fn appears(tx: &Tx, k: usize, asset: &Id) -> bool
    requires { k ≤ length tx.now.outputs }
    ensures { IsTrue result ↔ (Contains (map asset_in tx.now.inputs) asset.now
        ⊎ Contains (map asset_out (take k tx.now.outputs)) asset.now) }
{
    appears_in(tx.inputs.as_slice(), asset) || appears_out(&tx.outputs.as_slice()[..k], asset)
}

// What X10 reports of an asset.
fn sums_of(asset: &Id, tx: &Tx) -> Option<TxRefusal>
    ensures { Found (IsUnbalanced tx.now asset.now) result }
{
    let sum_in = units_in(asset, tx.inputs.as_slice());
    let sum_out = units_out(asset, tx.outputs.as_slice());
    if sum_in == sum_out && sum_in < 1 << 63 {
        return None;
    }
    Some(TxRefusal::X10 {
        asset: *asset,
        sum_in,
        sum_out,
    })
}

// The units of an asset that these inputs bring.
fn units_in(asset: &Id, inputs: &[Input]) -> u128
    ensures { result ≡ sum_in asset.now inputs.now }
{
    let mut sum = 0u128;
    for input in inputs {
        let amount = amount_in(input);
        if asset_in(input) == asset {
            sum += u128::from(amount);
        }
    }
    sum
}

// The units of an asset that these outputs take.
fn units_out(asset: &Id, outputs: &[Output]) -> u128
    ensures { result ≡ sum_out asset.now outputs.now }
{
    let mut sum = 0u128;
    for output in outputs {
        let amount = amount_out(output);
        if asset_out(output) == asset {
            sum += u128::from(amount);
        }
    }
    sum
}

// An input of this asset is among these.
fn appears_in(inputs: &[Input], asset: &Id) -> bool
    ensures { IsTrue result ↔ Contains (map asset_in inputs.now) asset.now }
{
    for input in inputs {
        if asset_in(input) == asset {
            return true;
        }
    }
    false
}

// An output of this asset is among these.
fn appears_out(outputs: &[Output], asset: &Id) -> bool
    ensures { IsTrue result ↔ Contains (map asset_out outputs.now) asset.now }
{
    for output in outputs {
        if asset_out(output) == asset {
            return true;
        }
    }
    false
}

// The asset of an output's value.
fn asset_out(output: &Output) -> &Id
    ensures { result.now ≡ asset_out output.now }
{
    match output {
        Output::Control(control) => &control.asset,
        Output::Retire(retire) => &retire.asset,
    }
}

// How many units of the asset an output takes.
fn amount_out(output: &Output) -> u64
    ensures { result ≡ amount_out output.now }
{
    match output {
        Output::Control(control) => control.amount,
        Output::Retire(retire) => retire.amount,
    }
}
