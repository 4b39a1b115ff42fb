//! Calls of vm_num.
use std::alloc::Global;
use vm_num::{add, div, mul, push_bytes, push_int, read_num, rem, shl, shr, sub, truth, write_num};

// By Python's exact numbers. The crate `calls` plays more.
#[test]
fn operations_on_numbers(rt: HostRuntime) {
    assert!(rt; [add(7, -2), sub(7, -2), mul(7, -2)] == [Some(5), Some(9), Some(-14)]);
    assert!(rt; [div(7, -2), rem(7, -2)] == [Some(-3), Some(1)]);
    assert!(rt; [shl(-7, 2), shr(-7, 2)] == [Some(-28), Some(-2)]);
}

// Numbers with their spellings, by Python's `n.to_bytes(8, 'little', signed=True).rstrip(b'\0')`.
const SPELLINGS: [(i64, &[u8]); 9] = [
    (0, b""),
    (1, b"\x01"),
    (-1, b"\xff\xff\xff\xff\xff\xff\xff\xff"),
    (127, b"\x7f"),
    (128, b"\x80"),
    (255, b"\xff"),
    (256, b"\x00\x01"),
    (i64::MAX, b"\xff\xff\xff\xff\xff\xff\xff\x7f"),
    (i64::MIN, b"\x00\x00\x00\x00\x00\x00\x00\x80"),
];

// The first number that is spelled, or whose spelling is read, in another way.
fn misspelled() -> Option<i64> {
    for (number, spelling) in &SPELLINGS {
        let is_read = read_num(spelling) == Some(*number) && truth(spelling) == (*number != 0);
        if !is_read || write_num(*number).as_slice() != *spelling {
            return Some(*number);
        }
    }
    None
}

#[test]
fn spells_and_reads_numbers(rt: HostRuntime) {
    assert_eq!(rt; misspelled(), None);
}

// So many bytes, and what stands before them in their push.
const FRONTS: [(u32, &[u8]); 8] = [
    (0, b"\x00"),
    (1, b"\x01"),
    (75, b"\x4b"),
    (76, b"\x4c\x4c"),
    (255, b"\x4c\xff"),
    (256, b"\x4d\x00\x01"),
    (65535, b"\x4d\xff\xff"),
    (65536, b"\x4e\x00\x00\x01\x00"),
];

fn is_front(alloc: Global, len: u32, front: &[u8]) -> bool {
    let Ok(item) = vec![in alloc; 0xabu8; len as usize] else {
        return false;
    };
    let mut out = Vec::new(alloc);
    push_bytes(&mut out, &item).is_ok() && out.strip_prefix(front) == Some(item.as_slice())
}

// Numbers, and their shortest pushes.
const PUSHES: [(i64, &[u8]); 6] = [
    (-1, b"\x4f"),
    (0, b"\x00"),
    (1, b"\x51"),
    (16, b"\x60"),
    (17, b"\x01\x11"),
    (-2, b"\x08\xfe\xff\xff\xff\xff\xff\xff\xff"),
];

fn is_push(alloc: Global, number: i64, push: &[u8]) -> bool {
    let mut out = Vec::new(alloc);
    push_int(&mut out, number).is_ok() && out.as_slice() == push
}

#[test]
fn shortest_pushes(rt: HostRuntime) {
    for (len, front) in &FRONTS {
        assert!(rt; is_front(rt.alloc(), *len, front), "{len}");
    }
    for (number, push) in &PUSHES {
        assert!(rt; is_push(rt.alloc(), *number, push), "{number}");
    }
}
