//! The program that asks for signatures of a quorum.
ghost use Rattle.std.specs.Prelude.{◌≡◌, ◌++◌, ◌∷◌, [], take, IfOk};
ghost use Rattle.std.specs.List.{flat_map};
ghost use Rattle.vm_num.specs.Push.{push_of};
ghost use Rattle.vote_book.specs.Quorum.{IsQuorum, quorum_of};

use crate::NoMemory;
use std::alloc::Global;
use vm_num::{push_bytes, push_int};
use wire::Args;

const BLOCKHASH: u8 = 0xaf;

const CHECKMULTISIG: u8 = 0xad;

/// The program that a block satisfies whose id is signed for `m` of these keys, in their order: from 1 to 16 keys of
/// fewer than 2^32 bytes each, and m from 1 to their number.
pub fn quorum_program(alloc: Global, keys: &Args, m: u64) -> Result<Vec<u8>, NoMemory>
    requires { IsQuorum keys.now m }
    ensures { IfOk result (λ program. program.items ≡ quorum_of keys.now m) }
{
    let mut program = Vec::new(alloc);
    program.push(BLOCKHASH)?;
    for key in keys.as_slice() {
        push_bytes(&mut program, key.as_slice())?;
    }
    push_int(&mut program, m as i64)?;
    push_int(&mut program, keys.len() as i64)?;
    program.push(CHECKMULTISIG)?;
    Ok(program)
}
