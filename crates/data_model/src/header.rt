//! The header of a block.
ghost use Rattle.std.specs.Prelude.{◌≡◌, IfOk};

use std::alloc::Global;
use wire::{Bytes, Id, NoMemory};

/// What a block's id names: its place in the chain, what it holds, and what the next block must satisfy.
#[derive(Debug, Drop)]
pub struct Header {
    /// The rules that the block is checked by.
    pub version: u64,
    /// The place in the chain: 1 for the initial block, and one more for each further one.
    pub height: u64,
    /// The id of the block before. 32 zero bytes for the initial block.
    pub previous: Id,
    /// When the block was made, in the unit that the chain has chosen, as milliseconds. Times of a chain rise.
    pub time: u64,
    /// The root of the ids of its transactions, in order.
    pub tx_root: Id,
    /// The root of the ids of the outputs that are unspent after it.
    pub unspent_root: Id,
    /// The program that the next block must satisfy.
    pub next_program: Bytes,
}

impl Header {
    /// An equal header.
    pub fn copy(&self, alloc: Global) -> Result<Header, NoMemory>
        ensures { IfOk result (λ header. header ≡ self.now) }
    {
        Ok(Header {
            version: self.version,
            height: self.height,
            previous: self.previous,
            time: self.time,
            tx_root: self.tx_root,
            unspent_root: self.unspent_root,
            next_program: self.next_program.copy(alloc)?,
        })
    }
}
