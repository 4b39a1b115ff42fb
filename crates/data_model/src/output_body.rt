//! An output as a spend names it.
ghost use Rattle.std.specs.Prelude.{◌≡◌, IfOk};

use std::alloc::Global;
use wire::{Bytes, Id, NoMemory};

/// An unspent output as a spend names it: a value under a program, and where it was made.
#[derive(Debug, Drop)]
pub struct OutputBody {
    /// The id of the mux that its value came from.
    pub source: Id,
    /// Its place among the outputs of its transaction, counted from 0.
    pub position: u64,
    /// The asset of its value.
    pub asset: Id,
    /// How many units of the asset it holds.
    pub amount: u64,
    /// The program that a spend of it must satisfy.
    pub program: Bytes,
    /// The hash of its data.
    pub data_hash: Id,
}

impl OutputBody {
    /// An equal body.
    pub fn copy(&self, alloc: Global) -> Result<OutputBody, NoMemory>
        ensures { IfOk result (λ body. body ≡ self.now) }
    {
        Ok(OutputBody {
            source: self.source,
            position: self.position,
            asset: self.asset,
            amount: self.amount,
            program: self.program.copy(alloc)?,
            data_hash: self.data_hash,
        })
    }
}
