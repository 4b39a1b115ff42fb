//! Records spelled in bytes.
ghost use Rattle.std.specs.Prelude.{◌≡◌, IfOk};
ghost use Rattle.data_model.specs.Spelling.{IsHeader, IsBlock, header_spelling, block_spelling};
ghost use Rattle.data_model.specs.Transaction.{IsTx, tx_spelling};

use crate::{Block, Header, Tx};
use std::alloc::Global;
use wire::{NoMemory, encode};

/// The spelling of a block.
pub fn encode_block(alloc: Global, block: &Block) -> Result<Vec<u8>, NoMemory>
    requires { IsBlock block.now }
    ensures { IfOk result (λ bytes. bytes.items ≡ block_spelling block.now) }
{
    encode(alloc, block)
}

/// The spelling of a header.
pub fn encode_header(alloc: Global, header: &Header) -> Result<Vec<u8>, NoMemory>
    requires { IsHeader header.now }
    ensures { IfOk result (λ bytes. bytes.items ≡ header_spelling header.now) }
{
    encode(alloc, header)
}

/// The spelling of a transaction.
pub fn encode_tx(alloc: Global, tx: &Tx) -> Result<Vec<u8>, NoMemory>
    requires { IsTx tx.now }
    ensures { IfOk result (λ bytes. bytes.items ≡ tx_spelling tx.now) }
{
    encode(alloc, tx)
}
