//! Calls of `vote_book`: a book of votes, and programs of quorums.
use std::alloc::Global;
use std::test::Fail;
use vote_book::{Book, DataKind, NoMemory, Vote, decode_book, quorum_program, read_quorum};
use wire::Id;

const A: Id = [0xaa; 32];

const B: Id = [0xbb; 32];

// The votes of one book, in order, and its answers.
const VOTES: [(u64, &Id, Vote); 6] = [
    (2, &A, Vote::New),
    (2, &A, Vote::Same),
    (2, &B, Vote::Refused { height: 2, kept: A }),
    (1, &A, Vote::Refused { height: 2, kept: A }),
    (3, &B, Vote::New),
    (2, &A, Vote::Refused { height: 3, kept: B }),
];

// The first vote that is answered in another way; `peek` says so before.
fn wrong_answer(book: &mut Book) -> Option<u64> {
    for (height, id, answer) in &VOTES {
        if book.peek(*height, *id) != *answer || book.vote(*height, *id) != *answer {
            return Some(*height);
        }
    }
    None
}

// The height 3 and the id of the last vote.
const LAST: &[u8; 33] = b"\x03\xbb\xbb\xbb\xbb\xbb\xbb\xbb\xbb\xbb\xbb\xbb\xbb\xbb\xbb\xbb\xbb\
    \xbb\xbb\xbb\xbb\xbb\xbb\xbb\xbb\xbb\xbb\xbb\xbb\xbb\xbb\xbb\xbb";

#[test]
fn a_book(rt: HostRuntime) -> Result<(), Fail> {
    let mut book = Book::new();
    assert!(rt; book.encode(rt.alloc())?.is_empty());
    assert_eq!(rt; wrong_answer(&mut book), None);
    assert!(rt; book.encode(rt.alloc())?.as_slice() == LAST.as_slice());
    Ok(())
}

// Bytes that are no book, and their first fault.
const NO_BOOKS: [(&[u8], u64, DataKind); 5] = [
    (b"\x80", 0, DataKind::Short),
    (b"\x80\x00", 0, DataKind::NotShortest),
    (b"\xff\xff\xff\xff\xff\xff\xff\xff\xff", 0, DataKind::TooBig),
    (b"\x03\xbb", 1, DataKind::Short),
    (
        b"\x03\xbb\xbb\xbb\xbb\xbb\xbb\xbb\xbb\xbb\xbb\xbb\xbb\xbb\xbb\xbb\xbb\
        \xbb\xbb\xbb\xbb\xbb\xbb\xbb\xbb\xbb\xbb\xbb\xbb\xbb\xbb\xbb\xbb\x00",
        33,
        DataKind::Trailing,
    ),
];

// The first of these that is read, or is refused in another way.
fn misread_book() -> Option<u64> {
    for (bytes, at, kind) in &NO_BOOKS {
        match decode_book(bytes) {
            Err(fault) if fault == (*at, *kind) => {}
            _ => return Some(*at),
        }
    }
    None
}

#[test]
fn books_are_read(rt: HostRuntime) {
    assert_eq!(rt; misread_book(), None);
    let nothing = decode_book(b"");
    assert!(rt; matches!(nothing, Ok(book) if book.peek(1, &A) == Vote::New));
    let last = decode_book(LAST);
    assert!(rt; matches!(last, Ok(book) if book.peek(3, &B) == Vote::Same));
}

const GREATEST: u64 = (1 << 63) - 1;

// The last height of one byte, the first of two and the greatest, and their varints.
const HEIGHTS: [(u64, &[u8]); 3] = [
    (127, b"\x7f"),
    (128, b"\x80\x01"),
    (GREATEST, b"\xff\xff\xff\xff\xff\xff\xff\xff\x7f"),
];

// A book with a vote for B at this height is spelled by the varint and B, and is read back.
fn is_book_of(alloc: Global, height: u64, varint: &[u8]) -> Result<bool, NoMemory> {
    let mut spelling = Vec::from_slice(alloc, varint)?;
    spelling.extend_from_slice(&B)?;
    let mut book = Book::new();
    if height > GREATEST || book.vote(height, &B) != Vote::New {
        return Ok(false);
    }
    let is_same = book.encode(alloc)?.as_slice() == spelling.as_slice();
    let read = decode_book(&spelling);
    Ok(is_same && matches!(read, Ok(book) if book.peek(height, &B) == Vote::Same))
}

#[test]
fn books_of_great_heights(rt: HostRuntime) -> Result<(), Fail> {
    for (height, varint) in &HEIGHTS {
        assert!(rt; is_book_of(rt.alloc(), *height, varint)?, "{height}");
    }
    Ok(())
}

// A program is read as that of so many keys, this many asked for, and is made of what was read again.
fn reads(alloc: Global, program: &[u8], count: usize, m: u64) -> Result<bool, NoMemory> {
    match read_quorum(alloc, program)? {
        Some((keys, number)) if number == m && keys.len() == count => {
            Ok(quorum_program(alloc, &keys, number)?.as_slice() == program)
        }
        _ => Ok(false),
    }
}

// BLOCKHASH, the keys aa, ab and ac, 2, 3, CHECKMULTISIG.
const TWO_OF_THREE: &[u8] = b"\xaf\x01\xaa\x01\xab\x01\xac\x52\x53\xad";

// The same of the keys aa to b9, all 16 of them asked for.
const ALL_OF_16: &[u8] = b"\xaf\x01\xaa\x01\xab\x01\xac\x01\xad\x01\xae\x01\xaf\x01\xb0\x01\xb1\
    \x01\xb2\x01\xb3\x01\xb4\x01\xb5\x01\xb6\x01\xb7\x01\xb8\x01\xb9\x60\x60\xad";

// The front of the push of a key, what follows the key's first byte, and how many of 16 such keys are asked for, by its
// push and as a number: keys of 56 bytes, and of 300, which PUSHDATA2 pushes.
const LONG_KEYS: [(&[u8], &[u8], u8, u64); 4] = [
    (b"\x38", &[0xaa; 55], 0x51, 1),
    (b"\x38", &[0xaa; 55], 0x60, 16),
    (b"\x4d\x2c\x01", &[0xbb; 299], 0x59, 9),
    (b"\x4d\x2c\x01", &[0xbb; 299], 0x60, 16),
];

// The program of 16 keys, whose first bytes are 0 to 15: BLOCKHASH, their pushes, those of the two numbers,
// CHECKMULTISIG.
fn program_of_16(alloc: Global, front: &[u8], rest: &[u8], m: u8) -> Result<Vec<u8>, NoMemory> {
    let mut program = vec![in alloc; 0xaf]?;
    for k in 0..16u8 {
        program.extend_from_slice(front)?;
        program.push(k)?;
        program.extend_from_slice(rest)?;
    }
    program.extend_from_slice(&[m, 0x60, 0xad])?;
    Ok(program)
}

#[test]
fn quorums_are_read(rt: HostRuntime) -> Result<(), Fail> {
    assert!(rt; reads(rt.alloc(), TWO_OF_THREE, 3, 2)?);
    assert!(rt; reads(rt.alloc(), ALL_OF_16, 16, 16)?);
    for (front, rest, code, m) in &LONG_KEYS {
        let program = program_of_16(rt.alloc(), front, rest, *code)?;
        assert!(rt; reads(rt.alloc(), &program, 16, *m)?, "{m} {front:?}");
    }
    Ok(())
}

// Nearly programs of a quorum: no key, none asked for, more asked for than there are, another count, a key that is not
// pushed as items are, another code at the front, none at the end, and one more after it.
const NO_QUORUMS: [&[u8]; 9] = [
    b"",
    b"\xaf\x51\x00\xad",
    b"\xaf\x01\xaa\x00\x51\xad",
    b"\xaf\x01\xaa\x52\x51\xad",
    b"\xaf\x01\xaa\x51\x52\xad",
    b"\xaf\x4c\x01\xaa\x51\x51\xad",
    b"\xae\x01\xaa\x51\x51\xad",
    b"\xaf\x01\xaa\x51\x51",
    b"\xaf\x01\xaa\x51\x51\xad\x61",
];

// The first of these that is read, by its place in the list.
fn read_none(alloc: Global) -> Result<Option<usize>, NoMemory> {
    for (k, program) in NO_QUORUMS.iter().enumerate() {
        if read_quorum(alloc, program)?.is_some() {
            return Ok(Some(k));
        }
    }
    Ok(None)
}

#[test]
fn other_programs_are_no_quorum(rt: HostRuntime) -> Result<(), Fail> {
    assert_eq!(rt; read_none(rt.alloc())?, None);
    Ok(())
}
