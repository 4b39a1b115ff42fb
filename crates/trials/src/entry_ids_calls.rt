//! Calls of entry_ids.
use data_model::Header;
use entry_ids::block_id;
use keyed::Sha256Id;
use std::alloc::Global;
use wire::{Bytes, Id, NoMemory};

// Made by another program, Python's hashlib, from the fields written out by hand.
const ID: &[u8; 32] = b"\x6d\x10\x0e\x91\x04\x76\x0b\xd4\xf9\xb4\xb4\x47\x10\x92\xab\xf3\
    \x0a\x85\x62\x9b\x3e\x29\xe5\x6d\xa0\x7c\x92\xa5\x62\x46\xb8\xd1";

fn id_of_a_header(alloc: Global) -> Result<Id, NoMemory> {
    let header = Header {
        version: 3,
        height: 2,
        previous: [5; 32],
        time: 300,
        tx_root: [6; 32],
        unspent_root: [7; 32],
        next_program: Bytes::from_slice(alloc, &[0x51, 0x52])?,
    };
    block_id(alloc, &Sha256Id, &header)
}

#[test]
fn ids_of_headers(rt: HostRuntime) {
    assert!(rt; id_of_a_header(rt.alloc()) == Ok(*ID));
}
