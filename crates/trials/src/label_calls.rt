//! Calls of `wire` for a label: read and written again, and each first fault at its place.
use crate::label::Label;
use std::alloc::Global;
use std::test::Fail;
use wire::{DataFault, DataKind, decode, encode};

// Version 0, colour 4, and the number 66,051.
const PLAIN: &[u8] = b"\x00\x04\x00\x01\x02\x03";

fn is_plain(label: &Label) -> bool {
    match label {
        Label {
            version: 0,
            colour: 4,
            number: 66_051,
            note: None,
        } => true,
        _ => false,
    }
}

// Version 1, colour 9, the greatest number, and a note of two bytes.
const NOTED: &[u8] = b"\x01\x09\xff\xff\xff\xff\x02hi";

fn is_noted(label: &Label) -> bool {
    match label {
        Label {
            version: 1,
            colour: 9,
            number: 4_294_967_295,
            note: Some(note),
        } => note.as_slice() == b"hi".as_slice(),
        _ => false,
    }
}

fn again(alloc: Global, bytes: &[u8]) -> Result<Vec<u8>, DataFault> {
    let label: Label = decode(alloc, bytes)?;
    Ok(encode(alloc, &label)?)
}

#[test]
fn labels(rt: HostRuntime) -> Result<(), Fail> {
    assert!(rt; is_plain(&decode::<Label>(rt.alloc(), PLAIN)?));
    assert!(rt; is_noted(&decode::<Label>(rt.alloc(), NOTED)?));
    assert!(rt; again(rt.alloc(), PLAIN)?.as_slice() == PLAIN);
    assert!(rt; again(rt.alloc(), NOTED)?.as_slice() == NOTED);
    Ok(())
}

// What is no label, and its first fault.
const NO_LABELS: [(&[u8], u64, DataKind); 12] = [
    (b"", 0, DataKind::Short),
    (b"\x02\x01\x00\x00\x00\x00", 0, DataKind::TooBig),
    (b"\x81\x00", 0, DataKind::NotShortest),
    (b"\x00", 1, DataKind::Short),
    (b"\x00\x05\x00\x00\x00\x00", 1, DataKind::Kind),
    (b"\x01\x00", 1, DataKind::Kind),
    (b"\x00\x01\x00\x00\x00", 2, DataKind::Short),
    (b"\x00\x01\x00\x00\x00\x00\x00", 6, DataKind::Trailing),
    (b"\x01\x01\x00\x00\x00\x00", 6, DataKind::Short),
    (b"\x01\x01\x00\x00\x00\x00\x03hi", 6, DataKind::Short),
    (b"\x01\x01\x00\x00\x00\x00\x81\x80\x04", 6, DataKind::TooBig),
    (b"\x01\x01\x00\x00\x00\x00\x00\x00", 7, DataKind::Trailing),
];

fn label_fault(alloc: Global, bytes: &[u8]) -> Option<DataFault> {
    match decode::<Label>(alloc, bytes) {
        Ok(_) => None,
        Err(fault) => Some(fault),
    }
}

#[test]
fn no_labels(rt: HostRuntime) {
    for (bytes, at, kind) in &NO_LABELS {
        let fault = DataFault::At {
            at: *at,
            kind: *kind,
        };
        assert!(rt; label_fault(rt.alloc(), bytes) == Some(fault), "{bytes:?}");
    }
}
