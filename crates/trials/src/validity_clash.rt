//! Outputs under a hash that gives all strings one value, so that all ids of a transaction are the same.
use crate::shown::Shown;
use data_model::decode_tx;
use keyed::{IdHash, NoSigs};
use std::alloc::Global;
use std::test::Fail;
use tx_check::{TxFault, TxRefusal, check_tx};
use wire::NoMemory;

// The hash of each string is one value.
struct OneValue;

impl IdHash for OneValue {
    ghost use Rattle.trials.specs.OneValue.{one_value, one_value_length, one_value_bytes};

    ghost hash_of = { λ _ _. one_value };

    fn hash(&self, _bytes: &[u8]) -> [u8; 32] {
        [7; 32]
    }

    ghost hash_length = { λ _ _. one_value_length };

    ghost hash_bytes = { λ _ _ i. one_value_bytes i };
}

// A name, the bytes of a transaction that issues 5 units under a nonce, and the place of the output whose id is taken.
const CLASHES: [(&str, &[u8], Option<u64>); 3] = [
    (
        "two outputs",
        b"\x01\0\x05\0\x01\0\x01\x01\x07\x07\x07\x07\x07\x07\x07\x07\x07\x07\x07\x07\x07\x07\x07\
        \x07\x07\x07\x07\x07\x07\x07\x07\x07\x07\x07\x07\x07\x07\x07\x07\x07\x05\x01\x51\0\0\0\
        \x02\0\x07\x07\x07\x07\x07\x07\x07\x07\x07\x07\x07\x07\x07\x07\x07\x07\x07\x07\x07\x07\
        \x07\x07\x07\x07\x07\x07\x07\x07\x07\x07\x07\x07\x02\x01\x51\0\0\x07\x07\x07\x07\x07\x07\
        \x07\x07\x07\x07\x07\x07\x07\x07\x07\x07\x07\x07\x07\x07\x07\x07\x07\x07\x07\x07\x07\x07\
        \x07\x07\x07\x07\x03\x01\x51\0",
        Some(1),
    ),
    (
        "an output behind a retirement",
        b"\x01\0\x05\0\x01\0\x01\x01\x07\x07\x07\x07\x07\x07\x07\x07\x07\x07\x07\x07\x07\x07\x07\
        \x07\x07\x07\x07\x07\x07\x07\x07\x07\x07\x07\x07\x07\x07\x07\x07\x07\x05\x01\x51\0\0\0\
        \x02\x01\x07\x07\x07\x07\x07\x07\x07\x07\x07\x07\x07\x07\x07\x07\x07\x07\x07\x07\x07\x07\
        \x07\x07\x07\x07\x07\x07\x07\x07\x07\x07\x07\x07\x02\0\0\x07\x07\x07\x07\x07\x07\x07\x07\
        \x07\x07\x07\x07\x07\x07\x07\x07\x07\x07\x07\x07\x07\x07\x07\x07\x07\x07\x07\x07\x07\x07\
        \x07\x07\x03\x01\x51\0",
        Some(1),
    ),
    (
        "a retirement behind an output",
        b"\x01\0\x05\0\x01\0\x01\x01\x07\x07\x07\x07\x07\x07\x07\x07\x07\x07\x07\x07\x07\x07\x07\
        \x07\x07\x07\x07\x07\x07\x07\x07\x07\x07\x07\x07\x07\x07\x07\x07\x07\x05\x01\x51\0\0\0\
        \x02\0\x07\x07\x07\x07\x07\x07\x07\x07\x07\x07\x07\x07\x07\x07\x07\x07\x07\x07\x07\x07\
        \x07\x07\x07\x07\x07\x07\x07\x07\x07\x07\x07\x07\x02\x01\x51\0\x01\x07\x07\x07\x07\x07\
        \x07\x07\x07\x07\x07\x07\x07\x07\x07\x07\x07\x07\x07\x07\x07\x07\x07\x07\x07\x07\x07\x07\
        \x07\x07\x07\x07\x07\x03\0",
        None,
    ),
];

// The output that takes the id of an earlier one.
fn taken(alloc: Global, bytes: &[u8]) -> Result<Option<u64>, Fail> {
    let tx = decode_tx(alloc, bytes)?;
    let view = Shown {
        initial: [0; 32],
        unspent: None,
        live: None,
    };
    match check_tx(alloc, &view, &OneValue, &NoSigs, 2, &tx) {
        Ok(()) => Ok(None),
        Err(TxFault::Refused(TxRefusal::X13 { output, id })) if id == [7; 32] => Ok(Some(output)),
        Err(TxFault::Refused(_)) => Ok(Some(u64::MAX)),
        Err(TxFault::NoMemory) => Err(Fail::from(NoMemory)),
    }
}

#[test]
fn ids_of_earlier_outputs(rt: HostRuntime) -> Result<(), Fail> {
    for (name, bytes, output) in &CLASHES {
        assert!(rt; taken(rt.alloc(), bytes)? == *output, "{name}");
    }
    Ok(())
}
