//! The command `apply`.
ghost use Rattle.std.specs.Prelude.{◌≡◌, ◌+◌, ◌<◌, ◌^◌, [], ◌∷◌, length};
ghost use Rattle.std.specs.Vec.Iter.{into_iter_items};
ghost use Rattle.outside.specs.Files.{Append};
ghost use Rattle.outside.specs.Steps.{Write, Print};
ghost use Rattle.ledger_core.specs.Chain.{StandsFor};
ghost use Rattle.data_model.specs.Files.{IsFramed, block_frame};
ghost use Rattle.ledger_file.specs.Files.{AreFramed, file_spelling};
ghost use Rattle.command_lines.specs.Line.{accepted_line, refused_block};
ghost use Rattle.replies.specs.Plan.{done, Does};
ghost use Rattle.replies.specs.Runs.{Obeys};
ghost use Rattle.chain_top.specs.Commands.{apply};
ghost use Rattle.chain_top.specs.Offered.{OfferDone, OffersDone};

use crate::files::{BlocksRead, read_blocks, read_ledger};
use crate::known::known;
use command_lines::{accepted_line, refused_block};
use data_model::Block;
use keyed::{IdHash, SigCheck};
use ledger_core::{Accepted, BlockRefusal, Ledger, OfferFault};
use ledger_file::{append_frame, split_frame};
use outside::Outside;
use replies::{Stop, fit_together, say, written};
use std::alloc::Global;
use std::vec::IntoIter;

/// Offers the blocks of one file to the ledger of another, in order, and reports each.
pub fn apply<O: Outside, H: IdHash, C: SigCheck>(
    alloc: Global,
    ledger: &str,
    offers: &str,
    out: &mut O,
    hash: &H,
    sigs: &C,
) -> Result<(), Stop>
    ensures { Obeys (apply (H.hash_of hash.now) (C.good_of sigs.now) ledger.now offers.now)
        (O.io out.old) (O.io out.new) result }
{
    let mut file = read_ledger(alloc, out, ledger, 1, hash, sigs)?;
    let offered = read_blocks(alloc, out, offers, 2)?;
    fit_together(alloc, 2, file.size, offered.bytes.len() as u64)?;
    offer_all(alloc, ledger, &mut file.ledger, offered, out, hash, sigs)
}

// Offers the blocks of a file in order, and reports each.
fn offer_all<O: Outside, H: IdHash, C: SigCheck>(
    alloc: Global,
    name: &str,
    ledger: &mut Ledger,
    offered: BlocksRead,
    out: &mut O,
    hash: &H,
    sigs: &C,
) -> Result<(), Stop>
    requires stands { StandsFor (H.hash_of hash.now) (C.good_of sigs.now) ledger.old }
    requires framed { AreFramed (into_iter_items offered.blocks) }
    requires spelled { offered.bytes.items ≡ file_spelling (into_iter_items offered.blocks) }
    requires few { length ledger.old.blocks + length (into_iter_items offered.blocks) < 2 ^ 40 }
    ensures { OffersDone (H.hash_of hash.now) (C.good_of sigs.now) name.now ledger.old.blocks
        (into_iter_items offered.blocks) (O.io out.old) (O.io out.new) result }
{
    let BlocksRead { bytes, blocks } = offered;
    offer_each(
        alloc,
        name,
        ledger,
        blocks,
        bytes.as_slice(),
        out,
        hash,
        sigs,
    )
}

// Offers blocks in order, whose frames these bytes are, and reports each.
fn offer_each<O: Outside, H: IdHash, C: SigCheck>(
    alloc: Global,
    name: &str,
    ledger: &mut Ledger,
    mut offers: IntoIter<Block>,
    mut frames: &[u8],
    out: &mut O,
    hash: &H,
    sigs: &C,
) -> Result<(), Stop>
    requires stands { StandsFor (H.hash_of hash.now) (C.good_of sigs.now) ledger.old }
    requires framed { AreFramed (into_iter_items offers) }
    requires spelled { frames.now ≡ file_spelling (into_iter_items offers) }
    requires few { length ledger.old.blocks + length (into_iter_items offers) < 2 ^ 40 }
    ensures { OffersDone (H.hash_of hash.now) (C.good_of sigs.now) name.now ledger.old.blocks (into_iter_items offers)
        (O.io out.old) (O.io out.new) result }
{
    known();
    while let Some(block) = offers.next() {
        let (frame, later) = split_frame(frames);
        offer_one(alloc, name, ledger, block, frame, out, hash, sigs)?;
        frames = later;
    }
    Ok(())
}

// Offers one block, of this frame, and reports it.
fn offer_one<O: Outside, H: IdHash, C: SigCheck>(
    alloc: Global,
    name: &str,
    ledger: &mut Ledger,
    block: Block,
    frame: &[u8],
    out: &mut O,
    hash: &H,
    sigs: &C,
) -> Result<(), Stop>
    requires stands { StandsFor (H.hash_of hash.now) (C.good_of sigs.now) ledger.old }
    requires framed { IsFramed block }
    requires spelled { frame.now ≡ block_frame block }
    requires few { length ledger.old.blocks < 2 ^ 40 }
    ensures stands { StandsFor (H.hash_of hash.now) (C.good_of sigs.now) ledger.new }
    ensures done { OfferDone (H.hash_of hash.now) (C.good_of sigs.now) name.now ledger.old.blocks block
        ledger.new.blocks (O.io out.old) (O.io out.new) result }
{
    known();
    match ledger.offer(alloc, hash, sigs, block) {
        Ok(added) => accept(alloc, name, frame, &added, out),
        Err(OfferFault::Refused(refusal)) => refuse(alloc, &refusal, out),
        Err(OfferFault::NoMemory) => Err(Stop::NoMemory),
    }
}

// Appends the frame of a block that was added, and then prints its line.
fn accept<O: Outside>(
    alloc: Global,
    name: &str,
    frame: &[u8],
    added: &Accepted,
    out: &mut O,
) -> Result<(), Stop>
    ensures { Does
        (done (Write Append name.now frame.now ∷ Print (accepted_line added.now.height added.now.id) ∷ []))
        (O.io out.old) (O.io out.new) result }
{
    let line = accepted_line(alloc, added.height, &added.id)?;
    written(append_frame(out, name, frame))?;
    say(out, line.as_bytes())
}

// Prints the line of a block that was refused.
fn refuse<O: Outside>(alloc: Global, refusal: &BlockRefusal, out: &mut O) -> Result<(), Stop>
    ensures { Does (done (Print (refused_block refusal.now) ∷ [])) (O.io out.old) (O.io out.new) result }
{
    let line = refused_block(alloc, refusal)?;
    say(out, line.as_bytes())
}
