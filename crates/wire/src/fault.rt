//! Why bytes are no spelling and no record.
ghost use Rattle.std.specs.Prelude.{◌≡◌, Some};
ghost use Rattle.wire.specs.declared.fault.DataFault.TheVariants.{NoMemory};
ghost use Rattle.wire.specs.Kinds.{kind_name};
ghost use Rattle.wire.specs.Places.{kind_of};

use crate::NoMemory;
use std::fmt;

/// Why bytes don't begin with a spelling.
#[derive(Clone, Copy, Debug, PartialEq, Eq)]
pub enum WireFault {
    /// The bytes end before the spelling does.
    Short,
    /// A number is spelled with more bytes than it needs: the last of two or more is zero.
    NotShortest,
    /// A number isn't below 2^63, or a string is longer than is allowed.
    TooBig,
}

/// Why bytes could not be read as a record.
#[derive(Clone, Copy, Debug, PartialEq, Eq)]
pub enum DataFault {
    /// The first fault of the bytes, and the place of its first byte, counted from 0.
    At { at: u64, kind: DataKind },
    /// Out of memory.
    NoMemory,
}

/// What is wrong at a place of the bytes.
#[derive(Clone, Copy, Debug, PartialEq, Eq)]
pub enum DataKind {
    /// The bytes end in a field.
    Short,
    /// A number is spelled with more bytes than it needs.
    NotShortest,
    /// A number, a count or a length is above its limit, or records take more bytes than they may.
    TooBig,
    /// An amount is 0.
    Zero,
    /// A byte that says which kind follows names none.
    Kind,
    /// Bytes follow the end.
    Trailing,
    /// A file has not the number of records that it should have. No reader of one record reports this.
    Count,
}

impl fmt::Display for DataKind {
    ghost output = { λ kind. Some (kind_name kind) };

    fn fmt<W: fmt::Write>(&self, f: &mut fmt::Formatter<W>) -> fmt::Result {
        match self {
            DataKind::Short => write!(f, "Short"),
            DataKind::NotShortest => write!(f, "NotShortest"),
            DataKind::TooBig => write!(f, "TooBig"),
            DataKind::Zero => write!(f, "Zero"),
            DataKind::Kind => write!(f, "Kind"),
            DataKind::Trailing => write!(f, "Trailing"),
            DataKind::Count => write!(f, "Count"),
        }
    }
}

impl From<WireFault> for DataKind {
    ghost from_gives = { λ e kind. kind ≡ kind_of e };

    fn from(fault: WireFault) -> DataKind {
        match fault {
            WireFault::Short => DataKind::Short,
            WireFault::NotShortest => DataKind::NotShortest,
            WireFault::TooBig => DataKind::TooBig,
        }
    }
}

impl From<NoMemory> for DataFault {
    ghost from_gives = { λ _ e. e ≡ NoMemory };

    fn from(_: NoMemory) -> DataFault {
        DataFault::NoMemory
    }
}
