//! What a program sees of the transaction that it is run for.
use wire::{Bytes, Id, Listed};

/// An output of a transaction, as a program sees it.
#[derive(Debug, Drop)]
pub struct OutSeen {
    /// Whether it is a retirement, which has no program and is never spent.
    pub retired: bool,
    pub asset: Id,
    /// How many units of the asset it holds, below 2^63.
    pub amount: u64,
    /// Its program; of a retirement the empty one.
    pub program: Bytes,
    /// The hash of its data.
    pub data_hash: Id,
}

/// The outputs of a transaction, in order.
pub type Outs = Listed<OutSeen>;

/// An input of a transaction that a program is run for. A run needs its numbers to be below 2^63.
#[derive(Debug, Drop)]
pub struct TxContext {
    /// The asset of the input's value.
    pub asset: Id,
    /// How many units of the asset the input's value has.
    pub amount: u64,
    /// The outermost program: the one that the input has to satisfy.
    pub program: Bytes,
    /// The least time of a block that may hold the transaction.
    pub mintime: u64,
    /// The greatest time of a block that may hold the transaction; 2^63 - 1 where it has none.
    pub maxtime: u64,
    /// The hash of the transaction's data.
    pub data_hash: Id,
    /// The hash of the input's data.
    pub entry_data_hash: Id,
    /// The input's place, counted from 0.
    pub index: u64,
    /// The id of the input's entry.
    pub entry_id: Id,
    /// The id of the output that the input spends; an issuance has none.
    pub output_id: Option<Id>,
    /// The hash that signatures for the input sign.
    pub sig_hash: Id,
    /// All outputs of the transaction, in order.
    pub outs: Outs,
}
