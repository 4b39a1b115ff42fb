//! Calls of keyed.
use keyed::{IdHash, NoMemory, NoSigs, Sha256Id, SigCheck, TableCheck};
use std::alloc::Global;
use std::test::Fail;

// The digests of the empty text and of `abc` that FIPS 180-4 has as examples.
const EMPTY: &[u8; 32] = b"\xe3\xb0\xc4\x42\x98\xfc\x1c\x14\x9a\xfb\xf4\xc8\x99\x6f\xb9\x24\
    \x27\xae\x41\xe4\x64\x9b\x93\x4c\xa4\x95\x99\x1b\x78\x52\xb8\x55";

const ABC: &[u8; 32] = b"\xba\x78\x16\xbf\x8f\x01\xcf\xea\x41\x41\x40\xde\x5d\xae\x22\x23\
    \xb0\x03\x61\xa3\x96\x17\x7a\x9c\xb4\x10\xff\x61\xf2\x00\x15\xad";

#[test]
fn hashes_and_signatures(rt: HostRuntime) {
    assert!(rt; Sha256Id.hash(b"") == *EMPTY);
    assert!(rt; Sha256Id.hash(b"abc") == *ABC);
    assert!(rt; !NoSigs.good(b"key", b"message", b"\x00"));
}

// A table of 20 rows, whose keys and signatures are 0 to 19.
fn twenty_rows(alloc: Global) -> Result<TableCheck, NoMemory> {
    let mut table = TableCheck::new(alloc);
    for k in 0..20u8 {
        table.add(&[k], b"message", &[k, k])?;
    }
    Ok(table)
}

// Each of them is found, and none of them under another key, message or signature.
fn finds_twenty(table: &TableCheck) -> bool {
    for k in 0..20u8 {
        let is_found = table.good(&[k], b"message", &[k, k]);
        let is_other = table.good(&[20], b"message", &[k, k])
            || table.good(&[k], b"other", &[k, k])
            || table.good(&[k], b"message", &[k, 20]);
        if !is_found || is_other {
            return false;
        }
    }
    true
}

#[test]
fn a_table_of_twenty_rows(rt: HostRuntime) -> Result<(), Fail> {
    let table = twenty_rows(rt.alloc())?;
    assert!(rt; finds_twenty(&table));
    Ok(())
}
