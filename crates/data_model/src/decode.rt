//! Records read from bytes, from left to right.
ghost use Rattle.std.specs.Prelude.{◌≡◌, ℕ, List, Ok, Err, IfOk};
ghost use Rattle.data_model.specs.declared.block.Block.{Block};
ghost use Rattle.wire.specs.FirstFault.{FirstFaultOfAll};
ghost use Rattle.data_model.specs.Layout.{block_layout};
ghost use Rattle.data_model.specs.Spelling.{IsBlock, block_spelling};
ghost use Rattle.wire.specs.Places.{Fault, Gives};
ghost use Rattle.data_model.specs.Reading.{block_at};
ghost use Rattle.data_model.specs.declared.tx.Tx.{Tx};
ghost use Rattle.data_model.specs.Transaction.{tx_layout, IsTx, tx_spelling};
ghost use Rattle.data_model.specs.TransactionReading.{tx_at};

use crate::{Block, DataFault, Tx, block_readings, tx_readings};
use std::alloc::Global;
use wire::decode;

/// The block that the bytes spell, all of the bytes. Where its transactions take too many bytes together, the fault
/// stands at the first byte of the one that passes the limit, unless that one has a fault of its own.
#[tactic(auto, unfolding(crate::specs::Reading::block_at))]
pub fn decode_block(alloc: Global, b: &[u8]) -> Result<Block, DataFault>
    // What is read is spelled so.
    ensures found { IfOk result (λ block. IsBlock block × (b.now ≡ block_spelling block)) }

    // What is spelled so is read, unless memory runs out.
    ensures only { (block : Block) → IsBlock block → b.now ≡ block_spelling block → Gives result (Ok block) }

    // What is reported is the first fault, and the first fault is reported, unless memory runs out.
    ensures fault { (f : Fault)
        → result ≡ Err (DataFault.At f.at f.kind)
        → FirstFaultOfAll block_layout b.now f.at f.kind }
    ensures told { (f : Fault) → FirstFaultOfAll block_layout b.now f.at f.kind → Gives result (Err f) }

    // The same as a function of the bytes.
    ensures exact { Gives result (block_at b.now) }
{
    block_readings();
    decode::<Block>(alloc, b)
}

/// The transaction that the bytes spell, all of the bytes.
#[tactic(auto, unfolding(crate::specs::TransactionReading::tx_at))]
pub fn decode_tx(alloc: Global, b: &[u8]) -> Result<Tx, DataFault>
    // What is read is spelled so.
    ensures found { IfOk result (λ tx. IsTx tx × (b.now ≡ tx_spelling tx)) }

    // What is spelled so is read, unless memory runs out.
    ensures only { (tx : Tx) → IsTx tx → b.now ≡ tx_spelling tx → Gives result (Ok tx) }

    // What is reported is the first fault, and the first fault is reported, unless memory runs out.
    ensures fault { (f : Fault)
        → result ≡ Err (DataFault.At f.at f.kind)
        → FirstFaultOfAll tx_layout b.now f.at f.kind }
    ensures told { (f : Fault) → FirstFaultOfAll tx_layout b.now f.at f.kind → Gives result (Err f) }

    // The same as a function of the bytes.
    ensures exact { Gives result (tx_at b.now) }
{
    tx_readings();
    decode::<Tx>(alloc, b)
}
