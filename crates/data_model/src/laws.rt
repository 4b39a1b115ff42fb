//! What holds of the definitions, each the contract of a function with nothing to do.
ghost use Rattle.data_model.specs.Laws.{BlockLaws, TxLaws};

use crate::{Block, Header, Tx};
use wire::{layout_readings, record_readings};

/// The laws of reading blocks, for the proofs of crates above. It does nothing when it runs.
pub fn block_readings()
    ensures { BlockLaws }
{
    layout_readings();
    record_readings::<Header>();
    record_readings::<Block>();
}

/// The laws of reading transactions, for the proofs of crates above. It does nothing when it runs.
pub fn tx_readings()
    ensures { TxLaws }
{
    layout_readings();
    record_readings::<Tx>();
}
