//! The instructions of the virtual machine (Chain VM 1) as they stand in a program's bytes.
#![tactic(auto)]

ghost use Rattle.std.specs.Prelude.{◌≡◌, ◌<◌, ◌≤◌, ◌+◌, ◌^◌, length, IfOk};
ghost use Rattle.vm_code.specs.Instruction.{instruction_at, decoded, is_plain};
ghost use Rattle.vm_code.specs.Seen.{Reads};

mod assembler;
pub mod codes;
mod data;
pub mod laws;
mod names;
mod word;

pub use assembler::{AsmFault, assemble, disassemble};
use codes::{
    ADD_ONE, BLOCKHASH, BLOCKTIME, CATPUSHDATA, CHECKPREDICATE, CHECKSIG, DATA_MAX, DATA_MIN,
    FALSE, JUMP, JUMPIF, NEGATIVE_ONE, NEXTPROGRAM, NOP, ONE, OUTPUTID, PUSHDATA1, PUSHDATA2,
    PUSHDATA4, SHA256, VERIFY, WITHIN,
};
use data::{counted, counted_data, jump};

/// One instruction.
#[derive(Clone, Copy, Debug)]
pub struct Instruction<'a> {
    /// The code.
    pub code: u8,
    /// The bytes that a data code, 01 to 4e, pushes; of every other code none.
    pub pushed: &'a [u8],
    /// The place that a jump, 63 or 64, leads to; of every other code 0.
    pub target: u32,
    /// How many bytes it takes, at least one.
    pub len: u64,
}

/// Why no instruction stands at a place.
#[derive(Clone, Copy, Debug, PartialEq, Eq)]
pub enum CodeFault {
    /// The program ends inside the instruction.
    Short,
    /// No instruction has this code.
    BadOpcode,
    /// Out of memory; reading one instruction takes none.
    NoMemory,
}

/// The instruction at a place of a program. That no instruction has the code is reported before that the program ends
/// inside it.
pub fn next<'a>(program: &'a [u8], at: u64) -> Result<Instruction<'a>, CodeFault>
    requires { at < length program.now }
    ensures reads { Reads result (instruction_at program.now at) }
    ensures within { IfOk result (λ i. (0 < i.len) × (at + i.len ≤ length program.now)) }
    ensures target { IfOk result (λ i. i.target < 2 ^ 32) }
{
    let at = at as usize;
    decode(program[at], &program[at + 1..])
}

// The instruction of a code and the bytes after it.
fn decode(code: u8, behind: &[u8]) -> Result<Instruction<'_>, CodeFault>
    ensures reads { Reads result (decoded code behind.now) }
    ensures within { IfOk result (λ i. (0 < i.len) × (i.len ≤ 1 + length behind.now)) }
    ensures target { IfOk result (λ i. i.target < 2 ^ 32) }
{
    match code {
        DATA_MIN..=DATA_MAX => counted_data(code, 0, code as u64, behind),
        PUSHDATA1 => counted(code, 1, behind),
        PUSHDATA2 => counted(code, 2, behind),
        PUSHDATA4 => counted(code, 4, behind),
        JUMP | JUMPIF => jump(code, behind),
        _ if is_plain(code) => Ok(Instruction {
            code,
            pushed: &[],
            target: 0,
            len: 1,
        }),
        _ => Err(CodeFault::BadOpcode),
    }
}

// Whether the instruction of a code that pushes no data and does not jump is the code alone.
fn is_plain(code: u8) -> bool
    ensures { result ≡ is_plain code }
{
    matches!(
        code,
        FALSE | NEGATIVE_ONE
            | ONE..=NOP
            | VERIFY..=CATPUSHDATA
            | ADD_ONE..=WITHIN
            | SHA256
            | CHECKSIG..=BLOCKHASH
            | CHECKPREDICATE..=OUTPUTID
            | NEXTPROGRAM..=BLOCKTIME
    )
}
