//! Why an item cannot be reached or put.
use std::alloc::{AllocError, AllocFailed};

/// Why a call on a stack was not done. The stack is then as it was.
#[derive(Clone, Copy, Debug, PartialEq, Eq)]
pub enum StackFault {
    /// The data stack has too few items.
    Underflow,
    /// The alt stack is empty.
    AltUnderflow,
    /// Out of memory.
    NoMemory,
}

impl From<AllocError> for StackFault {
    ghost use Rattle.std.specs.Prelude.{◌≡◌};
    ghost use Rattle.vm_stack.specs.declared.fault.StackFault.TheVariants as fault;

    ghost from_gives = { λ _ e. e ≡ fault.NoMemory };

    fn from(_: AllocError) -> StackFault {
        StackFault::NoMemory
    }
}

impl<T: Drop> From<AllocFailed<T>> for StackFault {
    ghost use Rattle.std.specs.Prelude.{◌≡◌};
    ghost use Rattle.vm_stack.specs.declared.fault.StackFault.TheVariants as fault;

    ghost from_gives = { λ _ e. e ≡ fault.NoMemory };

    fn from(_: AllocFailed<T>) -> StackFault {
        StackFault::NoMemory
    }
}
