//! The command `quorum`.
ghost use Rattle.std.specs.Prelude.{◌≡◌, ◌≤◌, length, map, string_bytes, IfOk};
ghost use Rattle.command_lines.specs.Line.{program_line};
ghost use Rattle.replies.specs.Plan.{done, Does};
ghost use Rattle.replies.specs.Runs.{Obeys};
ghost use Rattle.chain_top.specs.Commands.{quorum, quorum_steps};
ghost use Rattle.vote_book.specs.Quorum.{IsQuorum, quorum_of};

use command_lines::{hex_words, program_line};
use outside::Outside;
use replies::{Stop, say};
use std::alloc::Global;
use vote_book::quorum_program;
use wire::Args;

/// Prints the program that a block satisfies whose id is signed for `m` of these keys.
pub fn quorum<O: Outside>(alloc: Global, m: u64, keys: &[String], out: &mut O) -> Result<(), Stop>
    requires some { 1 ≤ m }
    requires at_most { m ≤ length keys.now }
    requires few { length keys.now ≤ 16 }
    ensures { Obeys (quorum m (map string_bytes keys.now)) (O.io out.old) (O.io out.new) result }
{
    let keys = hex_words(alloc, keys, 2)?;
    report(alloc, m, &keys, out)
}

// Prints the program of a quorum.
fn report<O: Outside>(alloc: Global, m: u64, keys: &Args, out: &mut O) -> Result<(), Stop>
    requires { IsQuorum keys.now m }
    ensures { Does (done (quorum_steps keys.now m)) (O.io out.old) (O.io out.new) result }
{
    let program = quorum_program(alloc, keys, m)?;
    let line = program_line(alloc, program.as_slice())?;
    say(out, line.as_bytes())
}
