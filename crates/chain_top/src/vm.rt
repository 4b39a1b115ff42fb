//! The command `vm`.
ghost use Rattle.std.specs.Prelude.{◌+◌, ◌<◌, ◌≤◌, ◌^◌, [], ◌∷◌, length, map, string_bytes};
ghost use Rattle.command_lines.specs.Line.{verdict_line};
ghost use Rattle.outside.specs.Steps.{Print};
ghost use Rattle.replies.specs.Plan.{done, stop_of, Does};
ghost use Rattle.replies.specs.Recipe.{owe};
ghost use Rattle.replies.specs.Runs.{Obeys, OwnRuns};
ghost use Rattle.chain_top.specs.Commands.{vm, VerdictOwed};

use crate::known::known;
use command_lines::{hex_word, hex_words, verdict_line};
use keyed::SigCheck;
use outside::Outside;
use replies::{Stop, say};
use std::alloc::Global;
use vm_run::{Context, Verdict, verify};
use wire::Args;

/// Runs a program with no context on its arguments, and prints the verdict.
pub fn vm<O: Outside, C: SigCheck>(
    alloc: Global,
    limit: u64,
    program: &str,
    args: &[String],
    out: &mut O,
    sigs: &C,
) -> Result<(), Stop>
    requires limit { limit ≤ 100000 }
    requires few { length args.now + 3 < 2 ^ 64 }
    ensures { Obeys (vm (C.good_of sigs.now) limit program.now (map string_bytes args.now))
        (O.io out.old) (O.io out.new) result }
{
    let program = hex_word(alloc, program, 2)?;
    let args = hex_words(alloc, args, 3)?;
    report(alloc, limit, program.as_slice(), &args, out, sigs)
}

// Prints the verdict on a program and its arguments.
fn report<O: Outside, C: SigCheck>(
    alloc: Global,
    limit: u64,
    program: &[u8],
    args: &Args,
    out: &mut O,
    sigs: &C,
) -> Result<(), Stop>
    requires { limit ≤ 100000 }
    ensures { OwnRuns (owe (VerdictOwed (C.good_of sigs.now) limit program.now args.now))
        (O.io out.old) (O.io out.new) (stop_of result) }
{
    known();
    let verdict = verify(alloc, &Context::Nothing, sigs, program, args, limit)?;
    let line = verdict_line(alloc, verdict)?;
    say(out, line.as_bytes())
}
