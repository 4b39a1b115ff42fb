//! A record with a field that stands there only in one version, a byte of a set and a number of four bytes.
use std::alloc::Global;
use wire::{Bytes, Cursor, DataFault, NoMemory, Record, Writer, layout_readings};

const COLOURS: [u8; 3] = [1, 4, 9];

/// What stands on a box.
#[derive(Debug, Drop)]
pub struct Label {
    /// 0, or 1 where there is a note.
    pub version: u64,
    /// 1, 4 or 9.
    pub colour: u8,
    pub number: u32,
    pub note: Option<Bytes>,
}

impl Record for Label {
    ghost use Rattle.wire.specs.Layout.{FieldsFit, fields_spelling};
    ghost use Rattle.wire.specs.FirstFault.{FirstFault};
    ghost use Rattle.trials.specs.Label.{label_fields, label_at};

    ghost fits = { FieldsFit label_fields };

    ghost spelling = { fields_spelling label_fields };

    ghost faults = { FirstFault label_fields.layout };

    ghost reading = { label_at };

    fn read(alloc: Global, cursor: &mut Cursor<'_>) -> Result<Label, DataFault> {
        let version = cursor.number(1)?;
        Ok(Label {
            version,
            colour: cursor.byte_of(&COLOURS)?,
            number: cursor.u32_be()?,
            note: cursor.when::<Bytes>(alloc, version == 1)?,
        })
    }

    fn write(&self, out: &mut Writer) -> Result<(), NoMemory> {
        out.number(self.version)?;
        out.byte(self.colour)?;
        out.u32_be(self.number)?;
        out.when(&self.note)
    }

    fn readings() {
        layout_readings();
    }
}
