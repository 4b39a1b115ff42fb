//! Why a block is not added, and why one starts no chain.
ghost use Rattle.std.specs.Prelude.{◌≡◌};
ghost use Rattle.ledger_core.specs.declared.refusal.OfferFault.TheVariants as offers;
ghost use Rattle.ledger_core.specs.declared.refusal.StartFault.TheVariants as starts;

use tx_check::TxRefusal;
use vm_num::Failure;
use wire::{Id, NoMemory};

/// Why a block does not extend a chain: the first of these, in order, that holds.
#[derive(Clone, Copy, Debug, PartialEq, Eq)]
pub enum BlockRefusal {
    /// The previous id that the block names is not the tip's.
    B1 { tip: Id, given: Id },
    /// The height is not the tip's plus 1.
    B2 { wanted: u64, given: u64 },
    /// The time is not above the tip's.
    B3 { tip_time: u64, given: u64 },
    /// The version is not 1.
    B4 { given: u64 },
    /// The version falls. It is kept free: no block is refused so as yet.
    B5 { tip_version: u64, given: u64 },
    /// The root of the ids of the transactions is another one.
    B6 { computed: Id, given: Id },
    /// The tip's next program does not succeed on the block's arguments with the limit 10,000: what fails, and at which
    /// place of the program.
    B7 { kind: Failure, at: u64 },
    /// A transaction is refused, on what the chain and the block's earlier transactions show: its place in the block,
    /// from 0, and why.
    B8 { place: u64, refusal: TxRefusal },
    /// The root of the ids of the outputs that are unspent after the block is another one.
    B9 { computed: Id, given: Id },
}

/// Why an offered block was not added.
#[derive(Clone, Copy, Debug, PartialEq, Eq)]
pub enum OfferFault {
    /// It does not extend the chain.
    Refused(BlockRefusal),
    /// Out of memory.
    NoMemory,
}

impl From<NoMemory> for OfferFault {
    ghost from_gives = { λ _ fault. fault ≡ offers.NoMemory };

    fn from(_: NoMemory) -> OfferFault {
        OfferFault::NoMemory
    }
}

/// Why a block starts no chain: the first of these, in order, that holds.
#[derive(Clone, Copy, Debug, PartialEq, Eq)]
pub enum StartFault {
    /// I1: the height is not 1.
    HeightNotOne,
    /// I2: the previous id is not 32 zero bytes.
    PreviousNotZero,
    /// I3: the version is not 1.
    VersionNotOne,
    /// I4: there is a transaction or an argument.
    NotEmpty,
    /// I5: a root is not the hash of nothing.
    RootsNotEmpty,
    /// Out of memory.
    NoMemory,
}

impl From<NoMemory> for StartFault {
    ghost from_gives = { λ _ fault. fault ≡ starts.NoMemory };

    fn from(_: NoMemory) -> StartFault {
        StartFault::NoMemory
    }
}
