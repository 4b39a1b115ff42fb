//! Why texts are refused.
ghost use Rattle.std.specs.Prelude.{◌≡◌};
ghost use Rattle.filter_syntax.specs.declared.fault.FilterFault.TheVariants as faults;

use std::alloc::AllocFailed;
use wire::NoMemory;

/// Why a text is no filter, or no list of names.
#[derive(Clone, Copy, Debug, PartialEq, Eq)]
pub enum FilterFault {
    /// The text is none of the grammar, or past its limits: the place, in bytes from 0, of the first token with which
    /// no filter goes on after the tokens before it. The text's end counts as a token, and so do bytes with which none
    /// begins, and the attribute of the 257th comparison.
    Syntax { at: u64 },
    /// The text is one of the grammar: the place of the first name that is no attribute there.
    UnknownAttribute { at: u64 },
    /// Memory ran out.
    NoMemory,
}

impl From<NoMemory> for FilterFault {
    ghost from_gives = { λ _ fault. fault ≡ faults.NoMemory };

    fn from(_: NoMemory) -> FilterFault {
        FilterFault::NoMemory
    }
}

impl<T: Drop> From<AllocFailed<T>> for FilterFault {
    ghost from_gives = { λ _ fault. fault ≡ faults.NoMemory };

    fn from(_: AllocFailed<T>) -> FilterFault {
        FilterFault::NoMemory
    }
}
