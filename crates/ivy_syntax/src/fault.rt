//! Why a text is no source.

ghost use Rattle.std.specs.Prelude.{◌≡◌};
ghost use Rattle.ivy_syntax.specs.declared.fault.ParseFault.TheVariants as faults;

use std::alloc::AllocFailed;
use wire::NoMemory;

/// Why a text could not be read. A place is the number of bytes that stand before it.
#[derive(Clone, Copy, Debug, PartialEq, Eq)]
pub enum ParseFault {
    /// The place of the first token with which no source goes on after the tokens before it. The text's end and a
    /// byte with which no token begins count as tokens.
    Syntax { at: u64 },
    /// The place of the first token that passes a limit, and the number of the limit, the smallest where it passes
    /// several: 1 contracts of a text (16), 2 parameters of a contract (32), 3 clauses of a contract (16), 4 parameters
    /// of a clause (32), 5 requirements of a clause (8), 6 statements of a clause (64), 7 parentheses, calls, lists and
    /// unary operators within one another (32), 8 members of a list or call (16), 9 operators of an expression (256).
    TooMany { what: u8, at: u64 },
    /// Memory was wanted and not found.
    NoMemory,
}

impl From<NoMemory> for ParseFault {
    ghost from_gives = { λ _ fault. fault ≡ faults.NoMemory };

    fn from(_: NoMemory) -> ParseFault {
        ParseFault::NoMemory
    }
}

impl<T: Drop> From<AllocFailed<T>> for ParseFault {
    ghost from_gives = { λ _ fault. fault ≡ faults.NoMemory };

    fn from(_: AllocFailed<T>) -> ParseFault {
        ParseFault::NoMemory
    }
}
