//! A record with each kind of field: a page is a list of entries, which take at most 40 bytes together, and a note in a
//! frame. An entry is a mark, or a note.
ghost use Rattle.std.specs.Prelude.{◌≡◌};

use std::alloc::Global;
use wire::{Bytes, Cursor, DataFault, Id, Listed, NoMemory, Record, Writer, layout_readings};

/// An amount and a text.
#[derive(Debug, Drop)]
pub struct Note {
    pub amount: u64,
    pub text: Bytes,
}

impl Record for Note {
    ghost use Rattle.trials.specs.Page.{NoteFits, note_spelling, note_layout, note_at};
    ghost use Rattle.wire.specs.FirstFault.{FirstFault};

    ghost fits = { NoteFits };

    ghost spelling = { note_spelling };

    ghost faults = { FirstFault note_layout };

    ghost reading = { note_at };

    fn read(alloc: Global, cursor: &mut Cursor<'_>) -> Result<Note, DataFault> {
        let amount = cursor.amount(1000)?;
        let text = cursor.text(alloc, 16)?;
        Ok(Note { amount, text })
    }

    fn write(&self, out: &mut Writer) -> Result<(), NoMemory> {
        out.number(self.amount)?;
        out.text(self.text.as_slice())
    }

    fn readings() {
        layout_readings();
    }
}

/// What stands in a page.
#[derive(Debug, Drop)]
pub enum Entry {
    Mark,
    Note(Note),
}

impl Record for Entry {
    ghost use Rattle.trials.specs.Page.{EntryFits, entry_spelling, entry_layout, entry_at};
    ghost use Rattle.wire.specs.FirstFault.{FirstFault};

    ghost fits = { EntryFits };

    ghost spelling = { entry_spelling };

    ghost faults = { FirstFault entry_layout };

    ghost reading = { entry_at };

    fn read(alloc: Global, cursor: &mut Cursor<'_>) -> Result<Entry, DataFault> {
        match cursor.kind(2)? {
            0 => Ok(Entry::Mark),
            _ => Ok(Entry::Note(Note::read(alloc, cursor)?)),
        }
    }

    fn write(&self, out: &mut Writer) -> Result<(), NoMemory> {
        match self {
            Entry::Mark => out.kind(0),
            Entry::Note(note) => {
                out.kind(1)?;
                note.write(out)
            }
        }
    }

    fn readings() {
        layout_readings();
    }
}

/// Entries of at most 40 bytes together, and a note in a frame.
#[derive(Debug, Drop)]
pub struct Page {
    pub entries: Listed<Entry>,
    pub last: Note,
}

impl Record for Page {
    ghost use Rattle.trials.specs.Page.{PageFits, page_spelling, page_layout, page_at};
    ghost use Rattle.wire.specs.FirstFault.{FirstFault};

    ghost fits = { PageFits };

    ghost spelling = { page_spelling };

    ghost faults = { FirstFault page_layout };

    ghost reading = { page_at };

    fn read(alloc: Global, cursor: &mut Cursor<'_>) -> Result<Page, DataFault> {
        let entries = cursor.many::<Entry>(alloc, 4, Some(40))?;
        let last = cursor.frame::<Note>(alloc, 100)?;
        Ok(Page { entries, last })
    }

    fn readings() {
        layout_readings();
    }

    fn write(&self, out: &mut Writer) -> Result<(), NoMemory> {
        out.many(self.entries.as_slice())?;
        out.frame(&self.last)
    }
}
