//! Calls of vm_code.
use std::alloc::Global;
use std::test::Fail;
use vm_code::{AsmFault, CodeFault, assemble, disassemble, next};

// A program and a place, and then the code, the pushed bytes, the place of a jump and the length that stand there, read
// off by hand. The crate `calls` plays places where none stands.
const PLACES: [(&[u8], u64, u8, &[u8], u32, u64); 9] = [
    (b"\x51\x00\x93", 1, 0x00, b"", 0, 1),
    (b"\x51\x93\xaa", 1, 0x93, b"", 0, 1),
    (b"\x51\x93\x02\xa1\xa2\x51", 2, 0x02, b"\xa1\xa2", 0, 3),
    (b"\x4c\x02\xa1\xa2\x51", 0, 0x4c, b"\xa1\xa2", 0, 4),
    (b"\x51\x4d\x00\x00", 1, 0x4d, b"", 0, 3),
    (b"\x4e\x01\x00\x00\x00\xa1\x51", 0, 0x4e, b"\xa1", 0, 6),
    (b"\x51\x63\x06\x00\x00\x00", 1, 0x63, b"", 6, 5),
    (b"\x64\x01\x02\x03\x04\x51", 0, 0x64, b"", 67305985, 5),
    (b"\x63\xff\xff\xff\xff", 0, 0x63, b"", 4294967295, 5),
];

// Programs and their texts, each code but most of the data codes once.
const TEXTS: [(&[u8], &str); 28] = [
    (b"", ""),
    (b"\x00", "FALSE"),
    (b"\x4f", "1NEGATE"),
    (
        b"\x51\x52\x53\x54\x55\x56\x57\x58\x59\x5a\x5b\x5c\x5d\x5e\x5f\x60",
        "1 2 3 4 5 6 7 8 9 10 11 12 13 14 15 16",
    ),
    (b"\x61", "NOP"),
    (
        b"\x69\x6a\x6b\x6c\x6d\x6e\x6f\x70\x71\x72\x73\x74\x75",
        "VERIFY FAIL TOALTSTACK FROMALTSTACK 2DROP 2DUP 3DUP 2OVER 2ROT 2SWAP IFDUP DEPTH DROP",
    ),
    (
        b"\x76\x77\x78\x79\x7a\x7b\x7c\x7d\x7e\x7f\x80\x81",
        "DUP NIP OVER PICK ROLL ROT SWAP TUCK CAT SUBSTR LEFT RIGHT",
    ),
    (
        b"\x82\x83\x84\x85\x86\x87\x88\x89",
        "SIZE INVERT AND OR XOR EQUAL EQUALVERIFY CATPUSHDATA",
    ),
    (
        b"\x8b\x8c\x8d\x8e\x8f\x90\x91\x92\x93\x94",
        "1ADD 1SUB 2MUL 2DIV NEGATE ABS NOT 0NOTEQUAL ADD SUB",
    ),
    (
        b"\x95\x96\x97\x98\x99\x9a\x9b\x9c\x9d\x9e",
        "MUL DIV MOD LSHIFT RSHIFT BOOLAND BOOLOR NUMEQUAL NUMEQUALVERIFY NUMNOTEQUAL",
    ),
    (
        b"\x9f\xa0\xa1\xa2\xa3\xa4\xa5",
        "LESSTHAN GREATERTHAN LESSTHANOREQUAL GREATERTHANOREQUAL MIN MAX WITHIN",
    ),
    (b"\xa8", "SHA256"),
    (b"\xac\xad", "CHECKSIG CHECKMULTISIG"),
    (b"\xae\xaf", "TXSIGHASH BLOCKHASH"),
    (b"\xc0\xc1", "CHECKPREDICATE CHECKOUTPUT"),
    (b"\xc2\xc3", "ASSET AMOUNT"),
    (b"\xc5\xc6", "MINTIME MAXTIME"),
    (b"\xc7\xc8", "TXDATA ENTRYDATA"),
    (b"\xc9\xca\xcb", "INDEX ENTRYID OUTPUTID"),
    (b"\xc4", "PROGRAM"),
    (b"\xcd\xce", "NEXTPROGRAM BLOCKTIME"),
    (b"\x52\x53\x93\x55\x9c", "2 3 ADD 5 NUMEQUAL"),
    (b"\x01\xff\x02\x00\xa1", "0xff 0x00a1"),
    (
        b"\x4c\x00\x4c\x01\xaa\x4d\x01\x00\xbb\x4e\x00\x00\x00\x00",
        "PUSHDATA1: PUSHDATA1:aa PUSHDATA2:bb PUSHDATA4:",
    ),
    (b"\x63\x00\x00\x00\x00", "JUMP:0"),
    (b"\x51\x63\x06\x00\x00\x00", "1 JUMP:6"),
    (b"\x64\xff\xff\xff\xff", "JUMPIF:4294967295"),
    (
        b"\x63\x0a\x00\x00\x00\x64\x0b\x01\x00\x00",
        "JUMP:10 JUMPIF:267",
    ),
];

// Programs without a text, and the first reason.
const FAULTS: [(&[u8], CodeFault); 6] = [
    (b"\x51\xaa\x4c", CodeFault::BadOpcode),
    (b"\x51\x93\x4c", CodeFault::Short),
    (b"\x51\x4c\xaa", CodeFault::Short),
    (b"\x51\x01", CodeFault::Short),
    (b"\x51\x63\x00\x00\x00", CodeFault::Short),
    (b"\xcc", CodeFault::BadOpcode),
];

// Texts that are none, and the first byte of the first word that is none.
const BAD: [(Option<u64>, &str); 40] = [
    (Some(0), "add"),
    (Some(0), "ADDS"),
    (Some(0), " "),
    (Some(0), " ADD"),
    (Some(4), "ADD "),
    (Some(4), "ADD  SUB"),
    (Some(4), "ADD 17 18"),
    (Some(6), "1 NOP 1NOP"),
    (Some(0), "0"),
    (Some(0), "01"),
    (Some(0), "-1"),
    (Some(0), "ADD:"),
    (Some(0), "1:1"),
    (Some(0), "DATA_1"),
    (Some(0), "PUSHDATA1"),
    (Some(0), "PUSHDATA3:aa"),
    (Some(0), "PUSHDATA1:AA"),
    (Some(0), "PUSHDATA1:aabbccddeefg"),
    (Some(0), "PUSHDATA1:aab"),
    (Some(0), "PUSHDATA1:aa:"),
    (Some(11), "PUSHDATA1: aa"),
    (Some(0), "pushdata1:aa"),
    (Some(0), "0xAA"),
    (Some(0), "0Xaa"),
    (Some(0), "0xa"),
    (Some(0), "0x"),
    (Some(0), "aa"),
    (Some(0), "JUMP"),
    (Some(0), "JUMP:"),
    (Some(0), "JUMP:01"),
    (Some(0), "JUMP:00"),
    (Some(0), "JUMP:+1"),
    (Some(0), "JUMP:-1"),
    (Some(0), "JUMP:0x1"),
    (Some(0), "JUMP:4294967296"),
    (Some(0), "JUMPIF:18446744073709551617"),
    (Some(9), "JUMPIF:0 JUMPIF:1a"),
    (Some(0), "ADD\tSUB"),
    (Some(0), "CHECKSIGN"),
    (Some(0), "é"),
];

fn stands(program: &[u8], at: u64, code: u8, pushed: &[u8], target: u32, len: u64) -> bool {
    if at >= program.len() as u64 {
        return false;
    }
    match next(program, at) {
        Ok(i) => i.code == code && i.pushed == pushed && i.target == target && i.len == len,
        Err(_) => false,
    }
}

#[test]
fn reads_instructions(rt: HostRuntime) {
    for (program, at, code, pushed, target, len) in &PLACES {
        assert!(rt;
            stands(program, *at, *code, pushed, *target, *len),
            "{program:?}"
        );
    }
}

// Whether the program has this text, and the text this program.
fn is_text_of(alloc: Global, text: &str, program: &[u8]) -> bool {
    let Ok(told) = disassemble(alloc, program) else {
        return false;
    };
    let Ok(bytes) = assemble(alloc, text) else {
        return false;
    };
    told.as_str() == text && bytes.as_slice() == program
}

#[test]
fn texts_of_programs(rt: HostRuntime) {
    for (program, text) in &TEXTS {
        assert!(rt; is_text_of(rt.alloc(), text, program), "{text}");
    }
}

// A text and a program by the front of each, what follows it, and how often: 3,000 codes, and a push of 70,000 bytes,
// whose length is 0x00011170.
const LONG_TEXTS: [(&str, &str, &[u8], &[u8], usize); 3] = [
    ("NOP", " NOP", b"\x61", b"\x61", 2_999),
    (
        "1",
        " 0xabcd JUMP:6",
        b"\x51",
        b"\x02\xab\xcd\x63\x06\x00\x00\x00",
        1_000,
    ),
    ("PUSHDATA4:", "ab", b"\x4e\x70\x11\x01\x00", b"\xab", 70_000),
];

#[test]
fn texts_of_long_programs(rt: HostRuntime) -> Result<(), Fail> {
    for (front, word, code, bytes, count) in &LONG_TEXTS {
        let mut text = String::from_str(rt.alloc(), front)?;
        text.push_str(word.repeat(rt.alloc(), *count)?.as_str())?;
        let mut program = Vec::from_slice(rt.alloc(), code)?;
        program.extend_from_slice(&bytes.repeat(rt.alloc(), *count)?)?;
        assert!(rt;
            is_text_of(rt.alloc(), text.as_str(), &program),
            "{count} {word}"
        );
    }
    Ok(())
}

fn text_fault(alloc: Global, program: &[u8]) -> Option<CodeFault> {
    disassemble(alloc, program).err()
}

fn bad_place(alloc: Global, text: &str) -> Option<u64> {
    match assemble(alloc, text) {
        Err(AsmFault::Bad { at }) => Some(at),
        Err(AsmFault::NoMemory) | Ok(_) => None,
    }
}

#[test]
fn no_texts_and_no_programs(rt: HostRuntime) {
    for (program, fault) in &FAULTS {
        assert!(rt;
            text_fault(rt.alloc(), program) == Some(*fault),
            "{program:?}"
        );
    }
    for (at, text) in &BAD {
        assert!(rt; bad_place(rt.alloc(), text) == *at, "{text}");
    }
}
