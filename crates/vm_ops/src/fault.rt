//! Why a row gives no item.
ghost use Rattle.std.specs.Prelude.{◌≡◌};

use std::alloc::AllocError;
use vm_num::Failure;

/// Why a row appended nothing.
#[derive(Clone, Copy, Debug, PartialEq, Eq)]
pub enum RowFault {
    /// The row fails on these operands.
    Row(Failure),
    /// Out of memory.
    NoMemory,
}

impl From<Failure> for RowFault {
    ghost use Rattle.vm_ops.specs.declared.fault.RowFault.TheVariants as faults;

    ghost from_gives = { λ kind e. e ≡ faults.Row kind };

    fn from(kind: Failure) -> RowFault {
        RowFault::Row(kind)
    }
}

impl From<AllocError> for RowFault {
    ghost use Rattle.vm_ops.specs.declared.fault.RowFault.TheVariants as faults;

    ghost from_gives = { λ _ e. e ≡ faults.NoMemory };

    fn from(_: AllocError) -> RowFault {
        RowFault::NoMemory
    }
}
