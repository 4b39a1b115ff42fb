//! The quorum that a program of that form asks for.
ghost use Rattle.std.specs.Prelude.{◌≡◌, ℕ, ◌+◌, ◌<◌, ◌≤◌, List, [], ◌++◌, length, slice_get, Some};
ghost use Rattle.std.specs.Prelude.{IfOk, IfSome, IsSome, IsNone};
ghost use Rattle.std.specs.List.{AllByRecursion};
ghost use Rattle.vm_num.specs.Push.{push_of};
ghost use Rattle.vote_book.specs.Quorum.{IsKey, IsQuorum, quorum_of};
ghost use Rattle.vote_book.specs.Positions.{AreBehind};

use crate::{NoMemory, quorum_program};
use std::alloc::Global;
use vm_code::laws::{instructions, readings};
use vm_code::next;
use vm_run::laws::pushes_read_back;
use wire::{Args, Bytes};

/// The last of the codes that push data.
const PUSHDATA4: u8 = 0x4e;

const MAX_KEYS: usize = 16;
/// A key has fewer bytes.
const MAX_KEY_LEN: usize = 1 << 32;

/// The keys of a program that `quorum_program` makes, and how many of them are asked for. `None` exactly where it makes
/// the program of no keys and no number.
pub fn read_quorum(alloc: Global, program: &[u8]) -> Result<Option<(Args, u64)>, NoMemory>
    // What is read is a quorum, and this is its program.
    ensures found { IfOk result (λ read. IfSome read
        (λ quorum. IsQuorum quorum.0 quorum.1 × (program.now ≡ quorum_of quorum.0 quorum.1))) }

    // The program of a quorum is read.
    ensures only { (keys : List (List ℕ)) (m : ℕ)
        → IsQuorum keys m
        → program.now ≡ quorum_of keys m
        → IfOk result (λ read. read ≡ Some (keys, m)) }
{
    let mut keys = Args::new(alloc);
    let at = read_keys(alloc, program, &mut keys)?;
    let Some(m) = small_number(program, at) else {
        return Ok(None);
    };
    if m > keys.len() as u64 {
        return Ok(None);
    }
    // The rest is read by writing it.
    let same = quorum_program(alloc, &keys, m)?;
    if same.as_slice() == program {
        Ok(Some((keys, m)))
    } else {
        Ok(None)
    }
}

// Reads at most 16 keys, those that are pushed after the first byte, and gives the place after the last of them.
fn read_keys(alloc: Global, program: &[u8], keys: &mut Args) -> Result<u64, NoMemory>
    requires { keys.old ≡ [] }
    ensures few { IfOk result (λ at. length keys.new ≤ 16) }
    ensures each { IfOk result (λ at. AllByRecursion IsKey keys.new) }
    ensures read { IfOk result (λ at. AreBehind program.now keys.new at) }
{
    let mut at = 1;
    while keys.len() < MAX_KEYS {
        let Some((key, len)) = key_at(program, at) else {
            return Ok(at);
        };
        keys.push(Bytes::from_slice(alloc, key)?)?;
        at += len;
    }
    Ok(at)
}

// The key that is pushed at a place, and how many bytes its push takes.
fn key_at(program: &[u8], at: u64) -> Option<(&[u8], u64)>
    ensures within { IfSome result (λ read. at + read.1 ≤ length program.now) }
    ensures key { IfSome result (λ read. IsKey read.0.now) }
    ensures pushed { (key before after : List ℕ)
        → IsKey key
        → program.now ≡ before ++ push_of key ++ after
        → length before ≡ at
        → IfSome result (λ read. (read.0.now ≡ key) × (read.1 ≡ length (push_of key))) × IsSome result }
    ensures none { (code : ℕ) → slice_get program.now at ≡ Some code → 0x4e < code → IsNone result }
{
    pushes_read_back();
    readings();
    instructions();
    if at >= program.len() as u64 {
        return None;
    }
    match next(program, at) {
        Ok(read) if read.code <= PUSHDATA4 && read.pushed.len() < MAX_KEY_LEN => {
            Some((read.pushed, read.len))
        }
        _ => None,
    }
}

// The number from 1 to 16 that is pushed at a place.
fn small_number(program: &[u8], at: u64) -> Option<u64>
    ensures small { IfSome result (λ n. (1 ≤ n) × (n ≤ 16)) }
    ensures pushed { (n : ℕ) → 1 ≤ n → n ≤ 16 → slice_get program.now at ≡ Some (80 + n) → result ≡ Some n }
{
    match program.get(at as usize) {
        Some(code @ 0x51..=0x60) => Some(u64::from(*code) - 80),
        _ => None,
    }
}
