//! Why a file is no ledger's.
use data_model::{DataKind, FramesFault};
use ledger_core::{BlockRefusal, StartFault};

/// Why bytes are not the file of a ledger.
#[derive(Clone, Copy, Debug, PartialEq, Eq)]
pub enum LoadFault {
    /// They do not read as frames, or there is none: the first fault is in this frame, counted from 0, at this byte of
    /// the file. A frame whose length passes the rest of the file is short at the first byte of its length. A file of
    /// no bytes has a fault of its count of frames, at 0.
    Frame { index: u64, at: u64, kind: DataKind },
    /// The first block starts no chain, for the first reason that holds.
    Start(StartFault),
    /// This later block, counted from 0, is the first that does not extend those before it, for the first reason that
    /// holds.
    Block { index: u64, refusal: BlockRefusal },
    /// Out of memory.
    NoMemory,
}

impl From<FramesFault> for LoadFault {
    ghost use Rattle.std.specs.Prelude.{◌≡◌};
    ghost use Rattle.ledger_file.specs.Loaded.{of_frames};

    ghost from_gives = { λ fault e. e ≡ of_frames fault };

    fn from(fault: FramesFault) -> LoadFault {
        match fault {
            FramesFault::At { index, at, kind } => LoadFault::Frame { index, at, kind },
            FramesFault::NoMemory => LoadFault::NoMemory,
        }
    }
}

impl From<StartFault> for LoadFault {
    ghost use Rattle.std.specs.Prelude.{◌≡◌};
    ghost use Rattle.ledger_file.specs.Loaded.{of_start};

    ghost from_gives = { λ fault e. e ≡ of_start fault };

    fn from(fault: StartFault) -> LoadFault {
        match fault {
            StartFault::NoMemory => LoadFault::NoMemory,
            why => LoadFault::Start(why),
        }
    }
}
