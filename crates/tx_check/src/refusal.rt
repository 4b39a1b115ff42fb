//! Why a transaction is not valid.
ghost use Rattle.std.specs.Prelude.{◌≡◌};
ghost use Rattle.tx_check.specs.declared.refusal.TxFault.TheVariants as faults;

use vm_num::Failure;
use wire::{Id, NoMemory};

/// Why a transaction is refused: the first of these, in order, that holds. Places of inputs and of outputs count from
/// 0, and each is the first of its kind.
#[derive(Clone, Copy, Debug, PartialEq, Eq)]
pub enum TxRefusal {
    /// The version is not 1.
    X1 {
        version: u64,
    },
    /// There is a maxtime, and mintime passes it.
    X2 {
        mintime: u64,
        maxtime: u64,
    },
    /// The block's time is below mintime.
    X3 {
        mintime: u64,
        time: u64,
    },
    /// There is a maxtime, and the block's time passes it.
    X4 {
        maxtime: u64,
        time: u64,
    },
    /// An issuance has a nonce and there is no maxtime.
    X5 {
        input: u64,
    },
    /// There is no spend and no issuance with a nonce.
    X6,
    /// A spend names the output of an earlier input.
    X7 {
        input: u64,
    },
    /// An issuance has the nonce of an earlier input.
    X8 {
        input: u64,
    },
    /// An issuance's asset is not the id of its program and its definition.
    X9 {
        input: u64,
    },
    /// The units of an asset that the inputs bring and those that the outputs take differ, or reach 2^63. Of several
    /// assets the one that appears first is reported, in the inputs and then in the outputs.
    X10 {
        asset: Id,
        sum_in: u128,
        sum_out: u128,
    },
    /// The output that is spent is not unspent with its id and this body.
    X11 {
        input: u64,
    },
    /// A nonce is live.
    X12 {
        input: u64,
    },
    /// The id of an output under a program is that of an unspent output, or of an earlier output or retirement of the
    /// transaction.
    X13 {
        output: u64,
        id: Id,
    },
    /// An input's program does not succeed on its arguments with the limit 10,000: what fails, and at which place of
    /// the program.
    X14 {
        input: u64,
        kind: Failure,
        at: u64,
    },
}

/// Why a transaction is not known to be valid.
#[derive(Clone, Copy, Debug, PartialEq, Eq)]
pub enum TxFault {
    /// It is refused.
    Refused(TxRefusal),
    /// Out of memory.
    NoMemory,
}

impl From<NoMemory> for TxFault {
    ghost from_gives = { λ _ fault. fault ≡ faults.NoMemory };

    fn from(_: NoMemory) -> TxFault {
        TxFault::NoMemory
    }
}
