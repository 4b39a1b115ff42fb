//! The inputs of a transaction: issuances and spends.
ghost use Rattle.std.specs.Prelude.{◌≡◌, IfOk};

use crate::OutputBody;
use std::alloc::Global;
use wire::{Args, Bytes, Id, NoMemory, Twin};

/// Where a transaction's value comes from.
#[derive(Debug, Drop)]
pub enum Input {
    Issue(Issue),
    Spend(Spend),
}

/// New units of an asset.
#[derive(Debug, Drop)]
pub struct Issue {
    /// What sets this issuance apart from others. Empty where a spend of the transaction does.
    pub nonce: Bytes,
    /// The asset, which is the id of its program and its definition.
    pub asset: Id,
    /// How many units are issued.
    pub amount: u64,
    /// The program that an issuance of the asset must satisfy.
    pub program: Bytes,
    /// What the asset is, in the issuer's words. No rule reads it.
    pub definition: Bytes,
    /// Data of the sender's own. No rule reads it.
    pub refdata: Bytes,
    /// The arguments of the program, the first deepest.
    pub args: Args,
}

/// The value of an unspent output.
#[derive(Debug, Drop)]
pub struct Spend {
    /// The output that is spent.
    pub from: OutputBody,
    /// Data of the sender's own. No rule reads it.
    pub refdata: Bytes,
    /// The arguments of the output's program, the first deepest.
    pub args: Args,
}

impl Twin for Input {
    fn copy(&self, alloc: Global) -> Result<Input, NoMemory> {
        match self {
            Input::Issue(issue) => Ok(Input::Issue(issue.copy(alloc)?)),
            Input::Spend(spend) => Ok(Input::Spend(spend.copy(alloc)?)),
        }
    }
}

impl Issue {
    fn copy(&self, alloc: Global) -> Result<Issue, NoMemory>
        ensures { IfOk result (λ issue. issue ≡ self.now) }
    {
        Ok(Issue {
            nonce: self.nonce.copy(alloc)?,
            asset: self.asset,
            amount: self.amount,
            program: self.program.copy(alloc)?,
            definition: self.definition.copy(alloc)?,
            refdata: self.refdata.copy(alloc)?,
            args: self.args.copy(alloc)?,
        })
    }
}

impl Spend {
    fn copy(&self, alloc: Global) -> Result<Spend, NoMemory>
        ensures { IfOk result (λ spend. spend ≡ self.now) }
    {
        Ok(Spend {
            from: self.from.copy(alloc)?,
            refdata: self.refdata.copy(alloc)?,
            args: self.args.copy(alloc)?,
        })
    }
}
