//! Headers and blocks as records: how each is read at a place, and written.
use crate::{Block, Header, Tx};
use std::alloc::Global;
use wire::{Bytes, Cursor, DataFault, MAX_NUMBER, NoMemory, Record, Writer, layout_readings};

pub(crate) const MAX_STRING_LEN: u64 = 65_536;

pub(crate) const MAX_ARGS: u64 = 64;

const MAX_TXS: u64 = 10_000;

const MAX_TX_BYTES: u64 = 16_777_216;

impl Record for Header {
    ghost use Rattle.wire.specs.FirstFault.{FirstFault};
    ghost use Rattle.data_model.specs.Layout.{header_layout};
    ghost use Rattle.data_model.specs.Spelling.{IsHeader, header_spelling};
    ghost use Rattle.data_model.specs.Reading.{header_at};

    ghost fits = { IsHeader };

    ghost spelling = { header_spelling };

    ghost faults = { FirstFault header_layout };

    ghost reading = { header_at };

    fn read(alloc: Global, cursor: &mut Cursor<'_>) -> Result<Header, DataFault> {
        Ok(Header {
            version: cursor.number(MAX_NUMBER)?,
            height: cursor.number(MAX_NUMBER)?,
            previous: cursor.id()?,
            time: cursor.number(MAX_NUMBER)?,
            tx_root: cursor.id()?,
            unspent_root: cursor.id()?,
            next_program: cursor.text(alloc, MAX_STRING_LEN)?,
        })
    }

    #[tactic(auto, unfolding(crate::specs::Spelling::header_spelling))]
    fn write(&self, out: &mut Writer) -> Result<(), NoMemory> {
        out.number(self.version)?;
        out.number(self.height)?;
        out.raw(&self.previous)?;
        out.number(self.time)?;
        out.raw(&self.tx_root)?;
        out.raw(&self.unspent_root)?;
        out.text(self.next_program.as_slice())
    }

    fn readings() {
        layout_readings();
    }
}

impl Record for Block {
    ghost use Rattle.wire.specs.FirstFault.{FirstFault};
    ghost use Rattle.data_model.specs.Layout.{block_layout};
    ghost use Rattle.data_model.specs.Spelling.{IsBlock, block_spelling};
    ghost use Rattle.data_model.specs.Reading.{next_block_at};

    ghost fits = { IsBlock };

    ghost spelling = { block_spelling };

    ghost faults = { FirstFault block_layout };

    ghost reading = { next_block_at };

    fn read(alloc: Global, cursor: &mut Cursor<'_>) -> Result<Block, DataFault> {
        Ok(Block {
            header: Header::read(alloc, cursor)?,
            args: cursor.many::<Bytes>(alloc, MAX_ARGS, None)?,
            txs: cursor.many::<Tx>(alloc, MAX_TXS, Some(MAX_TX_BYTES))?,
        })
    }

    #[tactic(auto, unfolding(crate::specs::Spelling::block_spelling))]
    fn write(&self, out: &mut Writer) -> Result<(), NoMemory> {
        self.header.write(out)?;
        out.many(self.args.as_slice())?;
        out.many(self.txs.as_slice())
    }

    fn readings() {
        layout_readings();
    }
}
