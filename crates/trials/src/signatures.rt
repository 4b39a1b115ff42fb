//! Signatures of a quorum.
use keyed::{NoMemory, SigCheck, TableCheck};
use std::alloc::Global;
use std::test::Fail;
use vm_num::Failure;
use vm_run::{Context, Verdict, verify};
use wire::{Args, Bytes};

// A message of 32 zero bytes, three keys, and counts of two signatures and three keys.
const TWO_OF_THREE: &[u8; 42] = b"\x20\
    \0\0\0\0\0\0\0\0\0\0\0\0\0\0\0\0\0\0\0\0\0\0\0\0\0\0\0\0\0\0\0\0\
    \x01\xaa\x01\xbb\x01\xcc\x52\x53\xad";

// The check under which 11 is good for the key aa and 33 for the key cc, on that message.
fn check(alloc: Global) -> Result<TableCheck, NoMemory> {
    let mut check = TableCheck::new(alloc);
    check.add(b"\xaa", &[0; 32], b"\x11")?;
    check.add(b"\xcc", &[0; 32], b"\x33")?;
    Ok(check)
}

fn signatures(alloc: Global, first: u8, second: u8) -> Result<Args, wire::NoMemory> {
    let first = Bytes::from_slice(alloc, &[first])?;
    let second = Bytes::from_slice(alloc, &[second])?;
    let mut args = Args::new(alloc);
    args.push(first)?;
    args.push(second)?;
    Ok(args)
}

// The verdict on two signatures.
fn verdict<C: SigCheck>(
    alloc: Global,
    check: &C,
    first: u8,
    second: u8,
) -> Result<Verdict, vm_run::NoMemory> {
    let args = signatures(alloc, first, second)?;
    verify(alloc, &Context::Nothing, check, TWO_OF_THREE, &args, 10_000)
}

#[test]
fn two_of_three(rt: HostRuntime) -> Result<(), Fail> {
    let check = check(rt.alloc())?;
    assert!(rt; check.good(b"\xaa", &[0; 32], b"\x11") && !check.good(b"\xaa", &[0; 32], b"\x33"));
    assert!(rt; verdict(rt.alloc(), &check, 0x11, 0x33)? == Verdict::Succeeded { left: 6913 });
    let wrong_order = Verdict::Failed {
        kind: Failure::FalseResult,
        at: 42,
    };
    assert!(rt; verdict(rt.alloc(), &check, 0x33, 0x11)? == wrong_order);
    Ok(())
}
