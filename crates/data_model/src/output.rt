//! The outputs of a transaction: those under a program, and retirements.
ghost use Rattle.std.specs.Prelude.{◌≡◌, IfOk};

use std::alloc::Global;
use wire::{Bytes, Id, NoMemory, Twin};

/// Where a transaction's value goes.
#[derive(Debug, Drop)]
pub enum Output {
    Control(Control),
    Retire(Retire),
}

/// A value under a program, which a later spend must satisfy.
#[derive(Debug, Drop)]
pub struct Control {
    pub asset: Id,
    /// How many units of the asset there are.
    pub amount: u64,
    pub program: Bytes,
    /// Data of the sender's own. No rule reads it.
    pub refdata: Bytes,
}

/// A value that nobody can spend.
#[derive(Debug, Drop)]
pub struct Retire {
    pub asset: Id,
    /// How many units of the asset there are.
    pub amount: u64,
    /// Data of the sender's own. No rule reads it.
    pub refdata: Bytes,
}

impl Twin for Output {
    fn copy(&self, alloc: Global) -> Result<Output, NoMemory> {
        match self {
            Output::Control(control) => Ok(Output::Control(control.copy(alloc)?)),
            Output::Retire(retire) => Ok(Output::Retire(retire.copy(alloc)?)),
        }
    }
}

impl Control {
    fn copy(&self, alloc: Global) -> Result<Control, NoMemory>
        ensures { IfOk result (λ control. control ≡ self.now) }
    {
        Ok(Control {
            asset: self.asset,
            amount: self.amount,
            program: self.program.copy(alloc)?,
            refdata: self.refdata.copy(alloc)?,
        })
    }
}

impl Retire {
    fn copy(&self, alloc: Global) -> Result<Retire, NoMemory>
        ensures { IfOk result (λ retire. retire ≡ self.now) }
    {
        Ok(Retire {
            asset: self.asset,
            amount: self.amount,
            refdata: self.refdata.copy(alloc)?,
        })
    }
}
