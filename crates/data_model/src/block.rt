//! A block.
ghost use Rattle.std.specs.Prelude.{◌≡◌, IfOk};

use crate::{Header, Txs};
use std::alloc::Global;
use wire::{Args, NoMemory};

/// A block: what is signed, the arguments of the program that it has to satisfy, and its transactions.
#[derive(Debug, Drop)]
pub struct Block {
    pub header: Header,
    /// The arguments of the next program of the block before, the first deepest. The block's id does not name them.
    pub args: Args,
    pub txs: Txs,
}

impl Block {
    /// An equal block.
    pub fn copy(&self, alloc: Global) -> Result<Block, NoMemory>
        ensures { IfOk result (λ block. block ≡ self.now) }
    {
        Ok(Block {
            header: self.header.copy(alloc)?,
            args: self.args.copy(alloc)?,
            txs: self.txs.copy(alloc)?,
        })
    }
}
