//! Transactions as bytes.
ghost use Rattle.data_model.specs.Transaction.{IsTx};

use data_model::{Tx, decode_tx, encode_tx};
use std::alloc::Global;
use std::test::Fail;
use wire::{DataFault, DataKind, NoMemory};

// Made by another program from the fields written out by hand: an issuance of 100 units with the nonce 01, to an output
// under the program 51, until time 5; and a spend of that output to one of 60 units, with a retirement of 40.
pub const ISSUES: &[u8; 84] =
    b"\x01\0\x05\0\x01\0\x01\x01\xbf\x44\x1a\x4b\x82\x0f\xe7\x7f\xee\xde\xbd\x9b\x5c\xef\x76\x45\xec\
    \xb5\x37\x16\x43\x05\x72\x03\x50\x4e\x25\xae\x90\xbb\x17\xfc\x64\x01\x51\0\0\0\x01\0\xbf\x44\x1a\
    \x4b\x82\x0f\xe7\x7f\xee\xde\xbd\x9b\x5c\xef\x76\x45\xec\xb5\x37\x16\x43\x05\x72\x03\x50\x4e\x25\
    \xae\x90\xbb\x17\xfc\x64\x01\x51\0";

pub const SPENDS: &[u8; 181] =
    b"\x01\0\0\0\x01\x01\xaf\xa6\xa7\x59\x02\xd9\xd6\x69\xa4\xdf\x3e\x0d\xcd\xe6\x79\xae\xc8\xce\x38\
    \x3a\xbd\x26\x26\xd7\x20\x08\xc4\xcf\xfb\x83\xd6\xba\0\xbf\x44\x1a\x4b\x82\x0f\xe7\x7f\xee\xde\
    \xbd\x9b\x5c\xef\x76\x45\xec\xb5\x37\x16\x43\x05\x72\x03\x50\x4e\x25\xae\x90\xbb\x17\xfc\x64\x01\
    \x51\xe3\xb0\xc4\x42\x98\xfc\x1c\x14\x9a\xfb\xf4\xc8\x99\x6f\xb9\x24\x27\xae\x41\xe4\x64\x9b\x93\
    \x4c\xa4\x95\x99\x1b\x78\x52\xb8\x55\0\0\x02\0\xbf\x44\x1a\x4b\x82\x0f\xe7\x7f\xee\xde\xbd\x9b\
    \x5c\xef\x76\x45\xec\xb5\x37\x16\x43\x05\x72\x03\x50\x4e\x25\xae\x90\xbb\x17\xfc\x3c\x01\x51\0\
    \x01\xbf\x44\x1a\x4b\x82\x0f\xe7\x7f\xee\xde\xbd\x9b\x5c\xef\x76\x45\xec\xb5\x37\x16\x43\x05\x72\
    \x03\x50\x4e\x25\xae\x90\xbb\x17\xfc\x28\0";

// Nothing but a version; another version; a least time above the greatest; and the greatest numbers.
const AGAIN: [&[u8]; 6] = [
    ISSUES,
    SPENDS,
    b"\x01\0\0\0\0\0",
    b"\x03\0\0\0\0\0",
    b"\x01\x05\x04\0\0\0",
    b"\xff\xff\xff\xff\xff\xff\xff\xff\x7f\xff\xff\xff\xff\xff\xff\xff\xff\x7f\xff\xff\xff\xff\xff\xff\
    \xff\xff\x7f\0\0\0",
];

// The copy of a transaction, spelled.
fn spelled(alloc: Global, tx: &Tx) -> Result<Vec<u8>, NoMemory>
    requires { IsTx tx.now }
{
    encode_tx(alloc, &tx.copy(alloc)?)
}

#[test]
fn transactions_again(rt: HostRuntime) -> Result<(), Fail> {
    for bytes in AGAIN {
        let tx = decode_tx(rt.alloc(), bytes)?;
        assert!(rt; spelled(rt.alloc(), &tx)?.as_slice() == bytes);
    }
    Ok(())
}

// Bytes, the place of their fault, and its kind.
const FAULTS: [(&[u8], u64, DataKind); 24] = [
    // numbers
    (b"", 0, DataKind::Short),
    (b"\x80\0", 0, DataKind::NotShortest),
    (b"\xff\xff\xff\xff\xff\xff\xff\xff\xff", 0, DataKind::TooBig),
    // strings
    (b"\x01\0\0", 3, DataKind::Short),
    (b"\x01\0\0\x05\x01", 3, DataKind::Short),
    (b"\x01\0\0\x80\0", 3, DataKind::NotShortest),
    (b"\x01\0\0\x81\x80\x04", 3, DataKind::TooBig),
    // counts of inputs and of outputs
    (b"\x01\0\0\0", 4, DataKind::Short),
    (b"\x01\0\0\0\x80\0", 4, DataKind::NotShortest),
    (b"\x01\0\0\0\x81\x02", 4, DataKind::TooBig),
    (b"\x01\0\0\0\0", 5, DataKind::Short),
    (b"\x01\0\0\0\0\x81\x02", 5, DataKind::TooBig),
    // kinds
    (b"\x01\0\0\0\x01", 5, DataKind::Short),
    (b"\x01\0\0\0\x01\x02", 5, DataKind::Kind),
    (b"\x01\0\0\0\0\x01\x02", 6, DataKind::Kind),
    // ids
    (
        b"\x01\0\0\0\x01\0\0\0\0\0\0\0\0\0\0\0\0\0\0\0\0\0\0\0\0\0\0\0\0\0\0\0\0\0\0\0\0\0",
        7,
        DataKind::Short,
    ),
    // amounts
    (
        b"\x01\0\0\0\x01\0\0\0\0\0\0\0\0\0\0\0\0\0\0\0\0\0\0\0\0\0\0\0\0\0\0\0\0\0\0\0\0\0\0",
        39,
        DataKind::Short,
    ),
    (
        b"\x01\0\0\0\x01\0\0\0\0\0\0\0\0\0\0\0\0\0\0\0\0\0\0\0\0\0\0\0\0\0\0\0\0\0\0\0\0\0\0\0",
        39,
        DataKind::Zero,
    ),
    (
        b"\x01\0\0\0\x01\0\0\0\0\0\0\0\0\0\0\0\0\0\0\0\0\0\0\0\0\0\0\0\0\0\0\0\0\0\0\0\0\0\0\x80\0",
        39,
        DataKind::NotShortest,
    ),
    (
        b"\x01\0\0\0\x01\0\0\0\0\0\0\0\0\0\0\0\0\0\0\0\0\0\0\0\0\0\0\0\0\0\0\0\0\0\0\0\0\0\0\xff\
        \xff\xff\xff\xff\xff\xff\xff\xff",
        39,
        DataKind::TooBig,
    ),
    (
        b"\x01\0\0\0\0\x01\0\0\0\0\0\0\0\0\0\0\0\0\0\0\0\0\0\0\0\0\0\0\0\0\0\0\0\0\0\0\0\0\0\0",
        39,
        DataKind::Zero,
    ),
    // arguments
    (
        b"\x01\0\0\0\x01\0\0\0\0\0\0\0\0\0\0\0\0\0\0\0\0\0\0\0\0\0\0\0\0\0\0\0\0\0\0\0\0\0\0\x01\0\
        \0\0\x41",
        43,
        DataKind::TooBig,
    ),
    (
        b"\x01\0\0\0\x01\0\0\0\0\0\0\0\0\0\0\0\0\0\0\0\0\0\0\0\0\0\0\0\0\0\0\0\0\0\0\0\0\0\0\x01\0\
        \0\0\x02\0\x03\x01",
        45,
        DataKind::Short,
    ),
    // bytes after the end
    (b"\x01\0\0\0\0\0\0", 6, DataKind::Trailing),
];

fn has_fault(alloc: Global, bytes: &[u8], at: u64, kind: DataKind) -> bool {
    match decode_tx(alloc, bytes) {
        Err(fault) => fault == DataFault::At { at, kind },
        Ok(_) => false,
    }
}

#[test]
fn faults_of_transactions(rt: HostRuntime) {
    for (bytes, at, kind) in &FAULTS {
        assert!(rt; has_fault(rt.alloc(), bytes, *at, *kind), "{bytes:?}");
    }
}
