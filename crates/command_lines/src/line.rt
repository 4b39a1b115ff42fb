//! Printed lines, each with its newline.
ghost use Rattle.std.specs.Prelude.{◌≡◌, IfOk, string_bytes};
ghost use Rattle.command_lines.specs.Line.{verdict_line, block_line, accepted_line, program_line};

use std::alloc::Global;
use vm_run::Verdict;
use wire::{Id, NoMemory};
use word_lines::Piece::{Hex, Number, Why, Word};
use word_lines::line;

// The bytes of a line of a program beside its hex digits.
const PROGRAM_WORDS: usize = 9;

/// The line of a verdict.
pub fn verdict_line(alloc: Global, verdict: Verdict) -> Result<String, NoMemory>
    ensures { IfOk result (λ line. string_bytes line ≡ verdict_line verdict) }
{
    match verdict {
        Verdict::Succeeded { left } => line(alloc, "succeeded", &[Word("left"), Number(left)]),
        Verdict::Failed { kind, at } => line(alloc, "failed", &[Why(kind), Word("at"), Number(at)]),
    }
}

/// The line of a block that starts a ledger, its height and its id in hex.
pub fn block_line(alloc: Global, height: u64, id: &Id) -> Result<String, NoMemory>
    ensures { IfOk result (λ line. string_bytes line ≡ block_line height id.now) }
{
    line(alloc, "block", &[Number(height), Hex(id)])
}

/// The line of an offered block that was added, its height and its id in hex.
pub fn accepted_line(alloc: Global, height: u64, id: &Id) -> Result<String, NoMemory>
    ensures { IfOk result (λ line. string_bytes line ≡ accepted_line height id.now) }
{
    line(alloc, "accepted", &[Number(height), Hex(id)])
}

/// The line of a program, in hex, of any length. Its room is taken once.
pub fn program_line(alloc: Global, program: &[u8]) -> Result<String, NoMemory>
    ensures { IfOk result (λ line. string_bytes line ≡ program_line program.now) }
{
    let digits = hex::encode(alloc, program)?;
    let mut line = String::with_capacity(alloc, digits.len() + PROGRAM_WORDS)?;
    line.push_str("program ")?;
    line.push_str(digits.as_str())?;
    line.push_str("\n")?;
    Ok(line)
}
