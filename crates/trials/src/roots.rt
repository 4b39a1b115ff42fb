//! Roots of lists and of sets.
use keyed::Sha256Id;
use merkle::{list_root, set_root};
use wire::Id;

// Two of them have the high bit of their first byte.
const IDS: [Id; 5] = [[1; 32], [2; 32], [3; 32], [0x83; 32], [0x84; 32]];

// The roots of no id, of the first, and of all as a list and as a set. Made by another program, Python's hashlib.
const NONE: Id =
    *b"\xe3\xb0\xc4\x42\x98\xfc\x1c\x14\x9a\xfb\xf4\xc8\x99\x6f\xb9\x24\x27\xae\x41\xe4\x64\x9b\x93\x4c\
    \xa4\x95\x99\x1b\x78\x52\xb8\x55";

const ONE: Id =
    *b"\xdc\xff\xe7\x86\xde\xd1\x6d\x28\x3c\x66\x38\x46\xad\x0c\x4f\xf2\x65\x58\xfc\xcd\xe3\x6c\xa9\xd3\
    \x0b\x2e\xa1\x9e\xad\xe9\xfc\x0e";

const LIST: Id =
    *b"\x04\xa0\x31\x34\x9c\xce\x90\x10\x67\x73\xf1\x19\xd2\xdb\xdc\x0d\xbc\xf7\xdf\xe5\x2a\xde\x74\xbc\
    \x76\x64\x4b\x7c\xb8\x2c\x1a\x87";

const SET: Id =
    *b"\x6a\x4a\xb4\x3b\xe4\x5b\x62\xd6\x34\x78\x50\x8f\x45\xc3\x40\x1d\x51\x91\x97\x63\x5d\x61\xf4\xd7\
    \xb9\x6c\x7e\x0c\x23\x8d\x04\x6f";

#[test]
fn roots_of_lists(rt: HostRuntime) {
    assert!(rt; list_root(&Sha256Id, &[]) == NONE);
    assert!(rt; list_root(&Sha256Id, &[IDS[0]]) == ONE);
    assert!(rt; list_root(&Sha256Id, &IDS) == LIST);
}

#[test]
fn roots_of_sets(rt: HostRuntime) {
    assert!(rt; set_root(&Sha256Id, &[]) == NONE);
    assert!(rt; set_root(&Sha256Id, &[IDS[0]]) == ONE);
    assert!(rt; set_root(&Sha256Id, &IDS) == SET);
}
