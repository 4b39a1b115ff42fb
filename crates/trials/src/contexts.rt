//! What programs see of their transactions.
ghost use Rattle.data_model.specs.Transaction.{IsTx};

use crate::transactions::ISSUES;
use data_model::{Tx, decode_tx};
use keyed::Sha256Id;
use std::alloc::Global;
use std::test::Fail;
use tx_check::context_of;
use vm_run::{Context, NoMemory, OutSeen, Outs, TxContext};
use wire::Id;

// From time 5 on: an issuance of 5 units with a nonce, under the program 51, and a spend of 7 units of another asset,
// under 52; to an output of 4 units under 53 and a retirement of 8. Each has a byte of data. The bytes, and what
// follows, were made by another program, Python's hashlib, from the fields and the bodies written out by hand.
const MIXED: &[u8; 227] =
    b"\x01\x05\x00\x01\x65\x02\x00\x01\x6e\x02\x02\x02\x02\x02\x02\x02\x02\x02\x02\x02\x02\x02\x02\x02\
    \x02\x02\x02\x02\x02\x02\x02\x02\x02\x02\x02\x02\x02\x02\x02\x02\x02\x05\x01\x51\x00\x01\x61\x00\
    \x01\x01\x01\x01\x01\x01\x01\x01\x01\x01\x01\x01\x01\x01\x01\x01\x01\x01\x01\x01\x01\x01\x01\x01\
    \x01\x01\x01\x01\x01\x01\x01\x01\x01\x03\x03\x03\x03\x03\x03\x03\x03\x03\x03\x03\x03\x03\x03\x03\
    \x03\x03\x03\x03\x03\x03\x03\x03\x03\x03\x03\x03\x03\x03\x03\x03\x03\x03\x07\x01\x52\x04\x04\x04\
    \x04\x04\x04\x04\x04\x04\x04\x04\x04\x04\x04\x04\x04\x04\x04\x04\x04\x04\x04\x04\x04\x04\x04\x04\
    \x04\x04\x04\x04\x04\x01\x62\x00\x02\x00\x02\x02\x02\x02\x02\x02\x02\x02\x02\x02\x02\x02\x02\x02\
    \x02\x02\x02\x02\x02\x02\x02\x02\x02\x02\x02\x02\x02\x02\x02\x02\x02\x02\x04\x01\x53\x01\x63\x01\
    \x03\x03\x03\x03\x03\x03\x03\x03\x03\x03\x03\x03\x03\x03\x03\x03\x03\x03\x03\x03\x03\x03\x03\x03\
    \x03\x03\x03\x03\x03\x03\x03\x03\x08\x01\x64";

// The hashes of the data of the transaction, of its inputs and of its outputs.
const DATA: Id =
    *b"\x3f\x79\xbb\x7b\x43\x5b\x05\x32\x16\x51\xda\xef\xd3\x74\xcd\xc6\x81\xdc\x06\xfa\xa6\x5e\x37\x4e\
    \x38\x33\x7b\x88\xca\x04\x6d\xea";

const ISSUE_DATA: Id =
    *b"\xca\x97\x81\x12\xca\x1b\xbd\xca\xfa\xc2\x31\xb3\x9a\x23\xdc\x4d\xa7\x86\xef\xf8\x14\x7c\x4e\x72\
    \xb9\x80\x77\x85\xaf\xee\x48\xbb";

const SPEND_DATA: Id =
    *b"\x3e\x23\xe8\x16\x00\x39\x59\x4a\x33\x89\x4f\x65\x64\xe1\xb1\x34\x8b\xbd\x7a\x00\x88\xd4\x2c\x4a\
    \xcb\x73\xee\xae\xd5\x9c\x00\x9d";

const CONTROL_DATA: Id =
    *b"\x2e\x7d\x2c\x03\xa9\x50\x7a\xe2\x65\xec\xf5\xb5\x35\x68\x85\xa5\x33\x93\xa2\x02\x9d\x24\x13\x94\
    \x99\x72\x65\xa1\xa2\x5a\xef\xc6";

const RETIRE_DATA: Id =
    *b"\x18\xac\x3e\x73\x43\xf0\x16\x89\x0c\x51\x0e\x93\xf9\x35\x26\x11\x69\xd9\xe3\xf5\x65\x43\x64\x29\
    \x83\x0f\xaf\x09\x34\xf4\xf8\xe4";

// The ids of the inputs' entries and of the spent output, and what signatures of the inputs sign.
const ISSUE: Id =
    *b"\x75\xc7\xae\x51\x02\x30\xf2\x8e\x04\x7e\x8d\x29\x47\x57\x8f\x64\x01\x94\x80\x4e\x79\x83\xbf\x1f\
    \x55\xcd\xea\xe6\x7e\xf8\xea\x2f";

const SPEND: Id =
    *b"\x73\x54\xcb\xb5\xb2\x43\x7d\x18\x15\x14\x4d\x31\x58\xd2\xb4\x8d\x3b\x5d\x73\x64\x12\xca\xff\x14\
    \xe5\x1f\x9d\x50\x4a\x06\x90\xe6";

const SPENT: Id =
    *b"\x56\x30\x9a\x9f\x82\x03\xe3\x7d\xf5\x40\x20\x40\x1a\xd8\x4a\x4c\xb5\xdd\xb7\xab\x58\xf5\xb3\x99\
    \xe3\xc0\xea\x76\x32\xb9\x4b\xa3";

const ISSUE_SIGNED: Id =
    *b"\x00\x12\x78\xeb\x38\x62\x76\x89\x0d\x6a\x1d\x11\x13\xf7\x23\x80\x0f\x5d\x93\x96\xdf\xda\xdf\xd5\
    \xf3\x6e\xf1\x1c\xba\x95\x0f\xef";

const SPEND_SIGNED: Id =
    *b"\x94\x87\x72\x31\x18\x33\x32\x4c\xd7\x11\xbb\xab\xb3\x62\x59\x03\x80\x1e\xc9\x75\x90\x1f\x6d\xbd\
    \x44\xf4\xaa\x3e\x05\xbb\xa7\x1b";

// What an input's program is to see of the input.
struct Wanted {
    // amount, mintime, maxtime, place
    numbers: [u64; 4],
    // asset, hash of the transaction's data and of the input's, entry, what is signed
    ids: [Id; 5],
    output_id: Option<Id>,
    program: &'static [u8],
}

const WANTED: [Wanted; 2] = [
    Wanted {
        numbers: [5, 5, (1 << 63) - 1, 0],
        ids: [[2; 32], DATA, ISSUE_DATA, ISSUE, ISSUE_SIGNED],
        output_id: None,
        program: b"\x51",
    },
    Wanted {
        numbers: [7, 5, (1 << 63) - 1, 1],
        ids: [[3; 32], DATA, SPEND_DATA, SPEND, SPEND_SIGNED],
        output_id: Some(SPENT),
        program: b"\x52",
    },
];

fn numbers_of(seen: &TxContext) -> [u64; 4] {
    [seen.amount, seen.mintime, seen.maxtime, seen.index]
}

fn ids_of(seen: &TxContext) -> [Id; 5] {
    let asset = seen.asset;
    let data_hash = seen.data_hash;
    let entry_data_hash = seen.entry_data_hash;
    let entry_id = seen.entry_id;
    let sig_hash = seen.sig_hash;
    [asset, data_hash, entry_data_hash, entry_id, sig_hash]
}

fn is_input(seen: &TxContext, wanted: &Wanted) -> bool {
    numbers_of(seen) == wanted.numbers
        && ids_of(seen) == wanted.ids
        && seen.output_id == wanted.output_id
        && seen.program.as_slice() == wanted.program
}

fn is_control(out: Option<&OutSeen>) -> bool {
    match out {
        Some(out) => {
            !out.retired
                && out.asset == [2; 32]
                && out.amount == 4
                && out.program.as_slice() == b"\x53".as_slice()
                && out.data_hash == CONTROL_DATA
        }
        None => false,
    }
}

fn is_retirement(out: Option<&OutSeen>) -> bool {
    match out {
        Some(out) => {
            out.retired
                && out.asset == [3; 32]
                && out.amount == 8
                && out.program.is_empty()
                && out.data_hash == RETIRE_DATA
        }
        None => false,
    }
}

fn are_outs(outs: &Outs) -> bool {
    let outs = outs.as_slice();
    outs.len() == 2 && is_control(outs.first()) && is_retirement(outs.get(1))
}

fn is_seen(alloc: Global, tx: &Tx, k: usize, wanted: &Wanted) -> Result<bool, NoMemory>
    requires { IsTx tx.now }
{
    if k >= tx.inputs.len() {
        return Ok(false);
    }
    match context_of(alloc, &Sha256Id, tx, k as u64)? {
        Context::Tx(seen) => Ok(is_input(&seen, wanted) && are_outs(&seen.outs)),
        _ => Ok(false),
    }
}

#[test]
fn contexts_of_inputs(rt: HostRuntime) -> Result<(), Fail> {
    let tx = decode_tx(rt.alloc(), MIXED)?;
    for (k, wanted) in WANTED.iter().enumerate() {
        assert!(rt; is_seen(rt.alloc(), &tx, k, wanted)?, "input {k}");
    }
    Ok(())
}

fn numbers_at(alloc: Global, tx: &Tx) -> Result<Option<[u64; 4]>, NoMemory>
    requires { IsTx tx.now }
{
    if tx.inputs.is_empty() {
        return Ok(None);
    }
    match context_of(alloc, &Sha256Id, tx, 0)? {
        Context::Tx(seen) => Ok(Some(numbers_of(&seen))),
        _ => Ok(None),
    }
}

#[test]
fn a_greatest_time_stays(rt: HostRuntime) -> Result<(), Fail> {
    let tx = decode_tx(rt.alloc(), ISSUES)?;
    assert!(rt; numbers_at(rt.alloc(), &tx)? == Some([100, 0, 5, 0]));
    Ok(())
}
