//! The command `init`.
ghost use Rattle.std.specs.Prelude.{◌≡◌, ◌<◌, ◌^◌, [], ◌∷◌, IfOk, string_bytes};
ghost use Rattle.outside.specs.Files.{Replace};
ghost use Rattle.outside.specs.Steps.{Write, Print};
ghost use Rattle.entry_ids.specs.Entry.{header_id};
ghost use Rattle.data_model.specs.Files.{block_frame};
ghost use Rattle.data_model.specs.Spelling.{IsBlock, IsHeader};
ghost use Rattle.command_lines.specs.Line.{block_line};
ghost use Rattle.replies.specs.Plan.{done, Does};
ghost use Rattle.replies.specs.Runs.{Obeys};
ghost use Rattle.chain_top.specs.Commands.{init, init_steps};
ghost use Rattle.chain_top.specs.Initial.{initial_block};

use command_lines::{block_line, hex_word};
use data_model::{Block, Header, Txs};
use entry_ids::block_id;
use keyed::IdHash;
use ledger_file::frame;
use outside::Outside;
use replies::{Stop, replace_and_say};
use std::alloc::Global;
use wire::{Args, Bytes};

/// Sets the ledger to one frame, the initial block of this time and next program, and reports it.
pub fn init<O: Outside, H: IdHash>(
    alloc: Global,
    ledger: &str,
    time: u64,
    program: &str,
    out: &mut O,
    hash: &H,
) -> Result<(), Stop>
    requires { time < 2 ^ 63 }
    ensures { Obeys (init (H.hash_of hash.now) ledger.now time program.now) (O.io out.old) (O.io out.new) result }
{
    let code = hex_word(alloc, program, 3)?;
    let block = initial_block(alloc, hash, time, code);
    start(alloc, ledger, &block, out, hash)
}

// Sets the ledger to the frame of this block, and then prints its line.
fn start<O: Outside, H: IdHash>(
    alloc: Global,
    ledger: &str,
    block: &Block,
    out: &mut O,
    hash: &H,
) -> Result<(), Stop>
    requires { IsBlock block.now }
    ensures { Does (done (init_steps (H.hash_of hash.now) ledger.now block.now)) (O.io out.old) (O.io out.new) result }
{
    let id = block_id(alloc, hash, &block.header)?;
    let line = block_line(alloc, 1, &id)?;
    let frame = frame(alloc, block)?;
    replace_and_say(out, ledger, frame.as_slice(), line.as_bytes())
}

fn initial_block<H: IdHash>(alloc: Global, hash: &H, time: u64, code: Bytes) -> Block
    ensures { result ≡ initial_block (H.hash_of hash.now) time code }
{
    let nothing = hash.hash(b"");
    Block {
        header: Header {
            version: 1,
            height: 1,
            previous: [0; 32],
            time,
            tx_root: nothing,
            unspent_root: nothing,
            next_program: code,
        },
        args: Args::new(alloc),
        txs: Txs::new(alloc),
    }
}
