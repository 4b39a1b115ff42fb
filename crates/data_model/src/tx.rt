//! A transaction.
ghost use Rattle.std.specs.Prelude.{◌≡◌, IfOk};

use crate::{Inputs, Outputs};
use std::alloc::Global;
use wire::{Bytes, NoMemory, Twin};

/// A transaction.
#[derive(Debug, Drop)]
pub struct Tx {
    /// The rules that the transaction is checked by.
    pub version: u64,
    /// The least time of a block that may hold it, in the unit of block times.
    pub mintime: u64,
    /// The greatest time of a block that may hold it, in the unit of block times. 0 for none.
    pub maxtime: u64,
    /// Data of the sender's own. No rule reads it.
    pub refdata: Bytes,
    pub inputs: Inputs,
    pub outputs: Outputs,
}

impl Tx {
    /// An equal transaction.
    pub fn copy(&self, alloc: Global) -> Result<Tx, NoMemory>
        ensures { IfOk result (λ tx. tx ≡ self.now) }
    {
        Ok(Tx {
            version: self.version,
            mintime: self.mintime,
            maxtime: self.maxtime,
            refdata: self.refdata.copy(alloc)?,
            inputs: self.inputs.copy(alloc)?,
            outputs: self.outputs.copy(alloc)?,
        })
    }
}

impl Twin for Tx {
    fn copy(&self, alloc: Global) -> Result<Tx, NoMemory> {
        Tx::copy(self, alloc)
    }
}
