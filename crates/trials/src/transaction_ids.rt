//! Ids of transactions and of their entries.
ghost use Rattle.data_model.specs.Transaction.{IsTx};

use crate::transactions::{ISSUES, SPENDS};
use data_model::{Input, OutputBody, Tx, decode_tx};
use entry_ids::{
    asset_id, input_id, mux_id, nonce_id, output_id, result_id, sig_hash, tx_id, tx_ids,
};
use keyed::{IdHash, Sha256Id};
use std::alloc::Global;
use wire::{Bytes, Id, NoMemory};

// Made by another program, Python's hashlib, from the bodies written out by hand, for a chain whose initial block has
// an id of zeros.
const ASSET: &[u8; 32] =
    b"\xbf\x44\x1a\x4b\x82\x0f\xe7\x7f\xee\xde\xbd\x9b\x5c\xef\x76\x45\xec\xb5\x37\x16\x43\x05\x72\x03\
    \x50\x4e\x25\xae\x90\xbb\x17\xfc";

const NONCE: &[u8; 32] =
    b"\xf5\x88\x38\x5c\x4a\x26\xd8\xb3\x85\xab\x2d\xfc\xdc\xe2\x12\xb8\xb3\x68\x08\xc0\xe9\xc0\x0a\xdb\
    \xec\x28\x94\x56\x2d\x63\xdc\xb0";

// The hash of no data.
const NOTHING: &[u8; 32] =
    b"\xe3\xb0\xc4\x42\x98\xfc\x1c\x14\x9a\xfb\xf4\xc8\x99\x6f\xb9\x24\x27\xae\x41\xe4\x64\x9b\x93\x4c\
    \xa4\x95\x99\x1b\x78\x52\xb8\x55";

// The ids of the mux, the first input, the first result and the transaction, and what signatures of that input sign.
const OF_ISSUES: [Id; 5] = [
    *b"\xaf\xa6\xa7\x59\x02\xd9\xd6\x69\xa4\xdf\x3e\x0d\xcd\xe6\x79\xae\xc8\xce\x38\x3a\xbd\x26\x26\xd7\
        \x20\x08\xc4\xcf\xfb\x83\xd6\xba",
    *b"\x36\x81\xba\x9b\x94\x21\xd2\x20\x5e\xf0\x4f\x4c\x42\xde\x39\xd7\x68\x6d\xee\xe9\x35\xea\xc2\x44\
        \x0f\x9e\xa8\x72\xa9\x68\x2e\x08",
    *b"\x42\x24\x0f\x58\x8b\x71\x55\x6c\xcf\xd1\x50\x40\x1e\x25\xb4\xbc\xd4\x16\x4c\xb6\xf1\xae\x14\xdd\
        \x82\xf2\xe0\x76\x99\x42\x94\x07",
    *b"\x7c\xa3\x98\xfc\xdd\xfd\xf6\x50\x6e\x43\xc4\x7d\x33\x75\x59\x6a\xa6\xa3\x91\xd8\xa3\xa7\x0d\x10\
        \xc6\xdc\x9c\x6d\x13\xcb\xaa\x80",
    *b"\xb7\xac\x68\xda\x59\x13\xf3\x2c\x44\x88\x0d\xbb\xf1\x06\x0a\x16\xb7\x4a\xf2\x8c\xf4\xe5\xa9\xa2\
        \x79\xb0\x98\xb3\xfb\xac\xb0\x04",
];

const OF_SPENDS: [Id; 5] = [
    *b"\x05\xca\x20\x73\xe9\xd7\xb5\x75\x69\xa9\x23\x5a\x15\x79\x5e\x8e\xa7\xec\xca\x46\x55\x50\xc5\x0f\
        \x37\x3b\xca\x1c\xab\x98\xf9\x3c",
    *b"\x36\x8a\x40\xb5\x29\x61\x0c\x35\x38\x3e\x58\x53\x7a\x84\x6e\x1e\xc6\x24\x9a\x1f\xed\x2e\x55\xaf\
        \xd3\xda\x0f\x4e\x37\x0c\x06\x77",
    *b"\xa3\xea\x4a\xdf\x01\xe4\x6c\x68\xf1\x07\x79\x5b\x1e\xa7\x93\x9a\x5b\x67\x3b\xdb\xcf\x85\xb5\xe9\
        \xa1\x15\xcf\xb0\xc9\xe9\xf5\x0a",
    *b"\xc8\x86\x2d\x98\x44\x2e\x3d\x20\x4d\x07\xb7\x17\x8c\x07\xd8\x49\x05\xb0\x19\x02\x27\x11\x62\xba\
        \xaa\xe7\xcb\x1d\x77\x15\xb0\x14",
    *b"\x9f\x68\xe8\x2e\x22\xb9\xbf\x07\x20\x32\xfd\xf4\xa5\x8c\xe9\x02\x58\xc0\xed\x75\x1d\xdb\x30\x4c\
        \x0e\x87\x13\x84\xcb\xde\x46\x2c",
];

// The id of the retirement.
const RETIRED: &[u8; 32] =
    b"\x37\x8f\x36\x44\x48\x32\xb6\xf9\x0c\x2e\x80\x04\x42\x45\x6c\x2b\xb7\x71\x36\x72\xfa\xba\x86\x2c\
    \x07\xa7\x93\x0c\x1b\xfd\xea\xbe";

// The same of a transaction that has an input and an output.
fn ids_of<H: IdHash>(alloc: Global, hash: &H, tx: &Tx) -> Result<Option<[Id; 5]>, NoMemory>
    requires { IsTx tx.now }
{
    let ids = tx_ids(alloc, hash, tx)?;
    match (
        ids.inputs.as_slice().first(),
        ids.results.as_slice().first(),
    ) {
        (Some(input), Some(result)) => {
            let signed = sig_hash(alloc, hash, input, &ids.tx)?;
            Ok(Some([ids.mux, *input, *result, ids.tx, signed]))
        }
        _ => Ok(None),
    }
}

// The same of one that is read.
pub fn ids_in<H: IdHash>(alloc: Global, hash: &H, tx: &[u8]) -> Option<[Id; 5]> {
    let tx = decode_tx(alloc, tx).ok()?;
    ids_of(alloc, hash, &tx).ok()?
}

#[test]
fn ids_of_transactions(rt: HostRuntime) {
    assert!(rt; ids_in(rt.alloc(), &Sha256Id, ISSUES) == Some(OF_ISSUES));
    assert!(rt; ids_in(rt.alloc(), &Sha256Id, SPENDS) == Some(OF_SPENDS));
}

// The ids of the mux, of an input, of an output or a retirement and of the transaction, each by its own call.
fn each_id<H: IdHash>(
    alloc: Global,
    hash: &H,
    tx: &Tx,
    k: usize,
) -> Result<Option<[Id; 4]>, NoMemory>
    requires { IsTx tx.now }
{
    if tx.inputs.len() == 0 || tx.outputs.len() <= k {
        return Ok(None);
    }
    Ok(Some([
        mux_id(alloc, hash, tx)?,
        input_id(alloc, hash, tx, 0)?,
        result_id(alloc, hash, tx, k as u64)?,
        tx_id(alloc, hash, tx)?,
    ]))
}

pub fn each_in<H: IdHash>(alloc: Global, hash: &H, tx: &[u8], k: usize) -> Option<[Id; 4]> {
    let tx = decode_tx(alloc, tx).ok()?;
    each_id(alloc, hash, &tx, k).ok()?
}

#[test]
fn each_id_of_a_transaction(rt: HostRuntime) {
    let [mux, input, _, tx, _] = OF_SPENDS;
    let each = [mux, input, *RETIRED, tx];
    assert!(rt; each_in(rt.alloc(), &Sha256Id, SPENDS, 1) == Some(each));
}

// The id of the asset, and that of the nonce of the first input.
fn asset_and_nonce<H: IdHash>(
    alloc: Global,
    hash: &H,
    tx: &Tx,
) -> Result<(Id, Option<Id>), NoMemory>
    requires { IsTx tx.now }
{
    let asset = asset_id(alloc, hash, &[0; 32], b"\x51", b"")?;
    let nonce = match tx.inputs.as_slice().first() {
        Some(Input::Issue(issue)) => { Some(nonce_id(alloc, hash, issue, tx.mintime, tx.maxtime)?) }
        Some(Input::Spend(_)) | None => None,
    };
    Ok((asset, nonce))
}

pub fn asset_and_nonce_in<H: IdHash>(
    alloc: Global,
    hash: &H,
    tx: &[u8],
) -> Option<(Id, Option<Id>)> {
    let tx = decode_tx(alloc, tx).ok()?;
    asset_and_nonce(alloc, hash, &tx).ok()
}

#[test]
fn ids_of_assets_and_nonces(rt: HostRuntime) {
    let found = asset_and_nonce_in(rt.alloc(), &Sha256Id, ISSUES);
    assert!(rt; found == Some((*ASSET, Some(*NONCE))));
}

// The id of the output that was issued, by the ids of its mux and its asset and the hash of no data.
pub fn issued<H: IdHash>(
    alloc: Global,
    hash: &H,
    source: Id,
    asset: Id,
    data_hash: Id,
) -> Result<Id, NoMemory> {
    let body = OutputBody {
        source,
        position: 0,
        asset,
        amount: 100,
        program: Bytes::from_slice(alloc, &[0x51])?,
        data_hash,
    };
    output_id(alloc, hash, &body)
}

#[test]
fn ids_of_outputs(rt: HostRuntime) {
    let [mux, _, result, _, _] = OF_ISSUES;
    assert!(rt; issued(rt.alloc(), &Sha256Id, mux, *ASSET, *NOTHING) == Ok(result));
}
