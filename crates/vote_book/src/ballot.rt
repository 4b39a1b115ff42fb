//! A vote that was cast, as a record.
use std::alloc::Global;
use wire::{Cursor, DataFault, Id, MAX_NUMBER, NoMemory, Record, Writer, layout_readings};

/// A vote that was cast: for the block of this id, at this height.
#[derive(Clone, Copy, Debug, PartialEq, Eq)]
pub struct Ballot {
    /// At most 2^63 - 1.
    pub height: u64,
    pub id: Id,
}

/// The height, then the id.
impl Record for Ballot {
    ghost use Rattle.wire.specs.FirstFault.{FirstFault};
    ghost use Rattle.vote_book.specs.Spelling.{ballot_layout, BallotFits, ballot_spelling, ballot_at};

    ghost fits = { BallotFits };

    ghost spelling = { ballot_spelling };

    ghost faults = { FirstFault ballot_layout };

    ghost reading = { ballot_at };

    fn read(_alloc: Global, cursor: &mut Cursor<'_>) -> Result<Ballot, DataFault> {
        let height = cursor.number(MAX_NUMBER)?;
        let id = cursor.id()?;
        Ok(Ballot { height, id })
    }

    fn write(&self, out: &mut Writer) -> Result<(), NoMemory> {
        out.number(self.height)?;
        out.raw(&self.id)
    }

    fn readings() {
        layout_readings();
    }
}
