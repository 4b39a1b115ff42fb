//! Calls of `wire`: worked spellings, room in a list, and a page with each fault.
use crate::page::{Entry, Note, Page};
use std::alloc::Global;
use std::test::Fail;
use wire::{
    Args, Bytes, DataFault, DataKind, FramesFault, NoMemory, WireFault, decode, encode,
    encode_frame, put, put_frame, put_varint, put_varstring, read_frames, take_varint,
    take_varstring,
};

const LAST: u64 = (1 << 63) - 1;

const SPELLINGS: [(u64, &[u8]); 5] = [
    (127, b"\x7f"),
    (128, b"\x80\x01"),
    (300, b"\xac\x02"),
    (16384, b"\x80\x80\x01"),
    (LAST, b"\xff\xff\xff\xff\xff\xff\xff\xff\x7f"),
];

fn is_spelled(alloc: Global, n: u64, spelling: &[u8]) -> bool {
    let mut out = Bytes::new(alloc);
    n <= LAST
        && put_varint(&mut out, n).is_ok()
        && out.as_slice() == spelling
        && take_varint(spelling) == Ok((n, spelling.len() as u64))
}

const NO_NUMBERS: [(&[u8], WireFault); 4] = [
    (b"\x80", WireFault::Short),
    (b"\x80\x00", WireFault::NotShortest),
    (b"\x80\x00\x01", WireFault::NotShortest),
    (b"\xff\xff\xff\xff\xff\xff\xff\xff\xff", WireFault::TooBig),
];

// Strings of at most 3 bytes.
const NO_STRINGS: [(&[u8], WireFault); 4] = [
    (b"\xff\xff\xff\xff\xff\xff\xff\xff", WireFault::Short),
    (b"\x80\x00\x01", WireFault::NotShortest),
    (b"\x04", WireFault::TooBig),
    (b"\x03ab", WireFault::Short),
];

fn is_string(alloc: Global) -> bool {
    let mut out = Bytes::new(alloc);
    put_varstring(&mut out, b"abc").is_ok()
        && out.as_slice() == b"\x03abc".as_slice()
        && take_varstring(b"\x03abcd", 3) == Ok((b"abc".as_slice(), 4))
}

#[test]
fn numbers_and_strings(rt: HostRuntime) {
    for (n, spelling) in &SPELLINGS {
        assert!(rt; is_spelled(rt.alloc(), *n, spelling), "{n}");
    }
    for (bytes, fault) in &NO_NUMBERS {
        assert!(rt; take_varint(bytes) == Err(*fault), "{bytes:?}");
    }
    assert!(rt; is_string(rt.alloc()));
    for (bytes, fault) in &NO_STRINGS {
        assert!(rt; take_varstring(bytes, 3) == Err(*fault), "{bytes:?}");
    }
}

// A copy of two strings.
fn two_strings(alloc: Global) -> Result<Args, NoMemory> {
    let text = Bytes::from_slice(alloc, b"ab")?;
    let mut args = Args::new(alloc);
    args.push(text)?;
    args.push(Bytes::new(alloc))?;
    args.copy(alloc)
}

// One byte after two.
fn three_bytes(alloc: Global) -> Result<Bytes, NoMemory> {
    let mut bytes = Bytes::new(alloc);
    bytes.extend_from_slice(b"ab")?;
    bytes.push(b'c')?;
    Ok(bytes)
}

fn has_room(alloc: Global) -> Result<bool, NoMemory> {
    let mut room = Bytes::new(alloc);
    room.reserve(100)?;
    let room = room.into_vec();
    Ok(room.is_empty() && room.capacity() >= 100)
}

#[test]
fn lists(rt: HostRuntime) -> Result<(), Fail> {
    let args = two_strings(rt.alloc())?;
    match args.as_slice() {
        [text, empty] => assert!(rt; text.as_slice() == b"ab".as_slice() && empty.is_empty()),
        _ => panic!(rt; "other strings"),
    }
    assert!(rt; three_bytes(rt.alloc())?.as_slice() == b"abc".as_slice());
    assert!(rt; has_room(rt.alloc()) == Ok(true));
    Ok(())
}

const PAGE: &[u8] = b"\x02\x00\x01\xac\x02\x02ab\x02\x01\x00";

fn page_again(alloc: Global) -> Result<Vec<u8>, DataFault> {
    let page: Page = decode(alloc, PAGE)?;
    Ok(encode(alloc, &page)?)
}

// A note, and after it the note in a frame.
fn note_twice(alloc: Global) -> Result<Bytes, DataFault> {
    let note: Note = decode(alloc, b"\x01\x00")?;
    let mut out = Bytes::new(alloc);
    put(alloc, &mut out, &note)?;
    put_frame(alloc, &mut out, &note)?;
    Ok(out)
}

fn note_in_a_frame(alloc: Global) -> Result<Vec<u8>, DataFault> {
    let note: Note = decode(alloc, b"\x01\x00")?;
    Ok(encode_frame(alloc, &note)?)
}

#[test]
fn pages(rt: HostRuntime) -> Result<(), Fail> {
    assert!(rt; page_again(rt.alloc())?.as_slice() == PAGE);
    assert!(rt; note_twice(rt.alloc())?.as_slice() == b"\x01\x00\x02\x01\x00".as_slice());
    assert!(rt; note_in_a_frame(rt.alloc())?.as_slice() == b"\x02\x01\x00".as_slice());
    Ok(())
}

// What is no page, and its first fault.
const NO_PAGES: [(&[u8], u64, DataKind); 14] = [
    (b"", 0, DataKind::Short),
    (b"\x05", 0, DataKind::TooBig),
    (b"\x02\x00", 2, DataKind::Short),
    (b"\x01\x02", 1, DataKind::Kind),
    (b"\x01\x01\x00", 2, DataKind::Zero),
    (b"\x01\x01\x80\x00", 2, DataKind::NotShortest),
    (b"\x01\x01\xe9\x07", 2, DataKind::TooBig),
    (b"\x01\x01\x01\x11", 3, DataKind::TooBig),
    (b"\x00\x65", 1, DataKind::TooBig),
    (b"\x00\x03\x01\x00", 1, DataKind::Short),
    (b"\x00\x03\x01\x00\x07", 4, DataKind::Trailing),
    (b"\x00\x01\x01", 3, DataKind::Short),
    (b"\x00\x02\x01\x00\x09", 4, DataKind::Trailing),
    (
        b"\x03\x01\x01\x100123456789abcdef\x01\x01\x100123456789abcdef\x01\x01\x100123456789abcdef",
        39,
        DataKind::TooBig,
    ),
];

fn page_fault(alloc: Global, bytes: &[u8]) -> Option<DataFault> {
    match decode::<Page>(alloc, bytes) {
        Ok(_) => None,
        Err(fault) => Some(fault),
    }
}

// What is no file of entries.
const NO_FILES: [(&[u8], u64, u64, DataKind); 5] = [
    (b"\x01\x00\x05\x01\x07\x02a", 1, 2, DataKind::Short),
    (b"\x01\x00\x09", 1, 2, DataKind::TooBig),
    (b"\x01\x02", 0, 1, DataKind::Kind),
    (b"\x01\x00\x01\x00\x02\x00\x00", 2, 6, DataKind::Trailing),
    (b"\x01\x00\x81\x00", 1, 2, DataKind::NotShortest),
];

fn file_fault(alloc: Global, bytes: &[u8]) -> Option<FramesFault> {
    match read_frames::<Entry>(alloc, bytes, 8) {
        Ok(_) => None,
        Err(fault) => Some(fault),
    }
}

#[test]
fn no_pages_and_no_files(rt: HostRuntime) {
    for (bytes, at, kind) in &NO_PAGES {
        let fault = DataFault::At {
            at: *at,
            kind: *kind,
        };
        assert!(rt; page_fault(rt.alloc(), bytes) == Some(fault), "{bytes:?}");
    }
    for (bytes, index, at, kind) in &NO_FILES {
        let fault = FramesFault::At {
            index: *index,
            at: *at,
            kind: *kind,
        };
        assert!(rt; file_fault(rt.alloc(), bytes) == Some(fault), "{bytes:?}");
    }
}

// Two entries after their lengths.
fn is_file(alloc: Global) -> bool {
    let Ok(entries) = read_frames::<Entry>(alloc, b"\x01\x00\x05\x01\x07\x02ab", 8) else {
        return false;
    };
    match entries.as_slice() {
        [Entry::Mark, Entry::Note(note)] => note.amount == 7,
        _ => false,
    }
}

#[test]
fn files_of_entries(rt: HostRuntime) {
    assert!(rt; is_file(rt.alloc()));
}
