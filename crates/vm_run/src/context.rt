//! What a program is run for.
use crate::TxContext;
use wire::{Bytes, Id};

/// A block that a program is run for.
#[derive(Debug, Drop)]
pub struct BlockContext {
    /// The block's id.
    pub block_id: Id,
    /// The outermost program: the one that the block has to satisfy.
    pub program: Bytes,
    /// The program that the next block has to satisfy.
    pub next_program: Bytes,
    /// When the block was made, in the unit that the chain has chosen. A run needs it to be below 2^63.
    pub time: u64,
}

/// What a program is run for. An instruction that asks for what is not there fails with `Context`.
#[derive(Debug, Drop)]
pub enum Context {
    /// Nothing: there is only the program.
    Nothing,
    /// An input of a transaction.
    Tx(TxContext),
    /// A block.
    Block(BlockContext),
}
