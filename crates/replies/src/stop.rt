//! Why a command stops before its end.
use wire::NoMemory;

/// Why a command ends before its last step.
#[derive(Drop)]
pub enum Stop {
    /// The command refuses, by this line, which is still to be printed.
    Refused(String),
    /// A read failed.
    ReadFault,
    /// An append, a replace or a print failed.
    WriteFault,
    /// Memory ran out.
    NoMemory,
}

impl From<NoMemory> for Stop {
    ghost use Rattle.std.specs.Prelude.{◌≡◌};
    ghost use Rattle.replies.specs.declared.stop.Stop.TheVariants as stops;

    ghost from_gives = { λ _ e. e ≡ stops.NoMemory };

    fn from(_: NoMemory) -> Stop {
        Stop::NoMemory
    }
}
