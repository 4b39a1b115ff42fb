//! Lists of the records of a transaction and of a block.
use crate::{Block, Input, Output, Tx};
use wire::{Id, Listed};

/// The inputs of a transaction.
pub type Inputs = Listed<Input>;

/// The outputs of a transaction.
pub type Outputs = Listed<Output>;

/// Transactions, in order.
pub type Txs = Listed<Tx>;

/// Blocks, in order.
pub type Blocks = Listed<Block>;

/// Ids, in order.
pub type Ids = Listed<Id>;
