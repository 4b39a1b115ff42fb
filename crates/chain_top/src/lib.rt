//! The program as one call: its words, its files, what it prints, and the status that it ends with.
#![tactic(auto)]

ghost use Rattle.std.specs.Prelude.{◌≡◌, Some, [], map, string_bytes};
ghost use Rattle.outside.specs.World.{world_at};
ghost use Rattle.chain_top.specs.Call.{Call};
ghost use Rattle.chain_top.specs.Commands.{recipe_of};
ghost use Rattle.command_words.specs.Seen.{seen, HasLimit};
ghost use Rattle.replies.specs.Runs.{Obeys};

mod apply;
mod files;
mod init;
mod known;
pub mod laws;
mod quorum;
mod vm;

use apply::apply;
use command_words::{Command, command_of};
use init::init;
use keyed::{IdHash, SigCheck};
use known::known;
use laws::{growing_ledgers, one_reply};
use outside::{Both, Files, Outside, Sink};
use quorum::quorum;
use replies::{Stop, close, out_of_memory, usage};
use std::alloc::Global;
use vm::vm;

/// All that the program does: it reads its words, the command first, does the command over these files, prints to
/// `out`, and gives the status to end with: 0 where the command was done, 1 where the words are outside the grammar, 2
/// where the command refused, 3 where a read failed, 4 where a write failed, 5 where memory ran out.
pub fn chain_main<F: Files, S: Sink, H: IdHash, C: SigCheck>(
    alloc: Global,
    words: &[String],
    files: &mut F,
    out: &mut S,
    hash: &H,
    sigs: &C,
) -> u8
    ensures { let world = world_at S.output S.faults F.contents F.reads F.writes F.read_faults F.write_faults in
        Call (H.hash_of hash.now) (C.good_of sigs.now) (map string_bytes words.now)
        (world out.old files.old) (world out.new files.new) result }
{
    let mut both = Both { files, out };
    answer(alloc, words, &mut both, hash, sigs)
}

// The status, over files and a sink as one.
fn answer<O: Outside, H: IdHash, C: SigCheck>(
    alloc: Global,
    words: &[String],
    out: &mut O,
    hash: &H,
    sigs: &C,
) -> u8
    ensures refs { (O.io out.new).refs ≡ (O.io out.old).refs }
    ensures call { Call (H.hash_of hash.now) (C.good_of sigs.now) (map string_bytes words.now)
        (O.io out.old).world (O.io out.new).world result }
{
    known();
    one_reply();
    growing_ledgers();
    match command_of(alloc, words) {
        Ok(Some(command)) => close(obey(alloc, command, out, hash, sigs), out),
        Ok(None) => usage(out),
        Err(_) => out_of_memory(),
    }
}

// Does a command.
fn obey<O: Outside, H: IdHash, C: SigCheck>(
    alloc: Global,
    command: Command<'_>,
    out: &mut O,
    hash: &H,
    sigs: &C,
) -> Result<(), Stop>
    requires { HasLimit (Some command) }
    ensures { Obeys (recipe_of (H.hash_of hash.now) (C.good_of sigs.now) [] (seen command.entry))
        (O.io out.old) (O.io out.new) result }
{
    match command {
        Command::Vm {
            limit,
            program,
            args,
        } => vm(alloc, limit, program, args, out, sigs),
        Command::Init {
            ledger,
            time,
            program,
        } => init(alloc, ledger, time, program, out, hash),
        Command::Apply { ledger, offers } => apply(alloc, ledger, offers, out, hash, sigs),
        Command::Quorum { m, keys } => quorum(alloc, m, keys, out),
    }
}
