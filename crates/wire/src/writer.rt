//! Bytes that are written one field after the other. After a refusal the writer is of no use: what was written is
//! dropped with it.
ghost use Rattle.std.specs.Prelude.{◌≡◌, ◌<◌, ◌^◌, ◌++◌, [], ◌∷◌, length, IfOk, IfSome, OnOk};
ghost use Rattle.std.specs.List.{flat_map, AllByRecursion};
ghost use Rattle.std.specs.Int.{w32, to_be_bytes};
ghost use Rattle.wire.specs.Spelling.{varint, varstring};
ghost use Rattle.wire.specs.Layout.{when_spelling};

use crate::{Bytes, NoMemory, Record, put_varint, put_varstring};
use std::alloc::Global;
use std::marker::Model;

// The spelling of a small record is written with one allocation.
const SMALL: usize = 256;

/// The bytes that were written. Each call adds one field.
#[derive(Drop)]
pub struct Writer {
    bytes: Bytes,
}

impl Model for Writer {
    ghost use Rattle.std.specs.Prelude.{List, ℕ};

    ghost Value = { List ℕ };

    ghost view = { λ writer. writer.bytes };
}

impl Writer {
    /// No bytes, and room for those of a small record.
    pub fn new(alloc: Global) -> Result<Writer, NoMemory>
        ensures { IfOk result (λ writer. writer ≡ []) }
    {
        let mut bytes = Bytes::new(alloc);
        bytes.reserve(SMALL)?;
        Ok(Writer { bytes })
    }

    /// What was written.
    pub fn as_slice(&self) -> &[u8]
        ensures { result.now ≡ self.now }
    {
        self.bytes.as_slice()
    }

    /// Drops what was written, and keeps its room.
    pub fn clear(&mut self)
        ensures { self.new ≡ [] }
    {
        self.bytes.truncate(0);
    }

    /// All that was written.
    pub fn end(self) -> Vec<u8>
        ensures { result.items ≡ self }
    {
        self.bytes.into_vec()
    }

    /// A number.
    pub fn number(&mut self, n: u64) -> Result<(), NoMemory>
        requires { n < 2 ^ 63 }
        ensures { OnOk result (self.new ≡ self.old ++ varint n) }
    {
        put_varint(&mut self.bytes, n)
    }

    /// Raw bytes.
    pub fn raw(&mut self, bytes: &[u8]) -> Result<(), NoMemory>
        ensures { OnOk result (self.new ≡ self.old ++ bytes.now) }
    {
        self.bytes.extend_from_slice(bytes)
    }

    /// A string, after its length.
    pub fn text(&mut self, text: &[u8]) -> Result<(), NoMemory>
        ensures { OnOk result (self.new ≡ self.old ++ varstring text.now) }
    {
        put_varstring(&mut self.bytes, text)
    }

    /// The number of a kind, in one byte.
    pub fn kind(&mut self, kind: u8) -> Result<(), NoMemory>
        ensures { OnOk result (self.new ≡ self.old ++ kind ∷ []) }
    {
        self.bytes.push(kind)
    }

    /// One byte.
    pub fn byte(&mut self, byte: u8) -> Result<(), NoMemory>
        ensures { OnOk result (self.new ≡ self.old ++ byte ∷ []) }
    {
        self.bytes.push(byte)
    }

    /// A number in four bytes, the most significant first.
    pub fn u32_be(&mut self, n: u32) -> Result<(), NoMemory>
        ensures { OnOk result (self.new ≡ self.old ++ to_be_bytes w32 n) }
    {
        self.bytes.extend_from_slice(&n.to_be_bytes())
    }

    /// A record where there is one, and else no bytes.
    pub fn when<T: Record>(&mut self, value: &Option<T>) -> Result<(), NoMemory>
        requires { IfSome value.now T.fits }
        ensures { OnOk result (self.new ≡ self.old ++ when_spelling T.spelling value.now) }
    {
        match value {
            Some(value) => value.write(self),
            None => Ok(()),
        }
    }

    /// How many records there are, and the records.
    pub fn many<T: Record>(&mut self, records: &[T]) -> Result<(), NoMemory>
        requires count { length records.now < 2 ^ 63 }
        requires each { AllByRecursion T.fits records.now }
        ensures { OnOk result
            (self.new ≡ self.old ++ (varint (length records.now) ++ flat_map T.spelling records.now)) }
    {
        self.number(records.len() as u64)?;
        for value in records {
            value.write(self)?;
        }
        Ok(())
    }

    /// A record after its length.
    pub fn frame<T: Record>(&mut self, value: &T) -> Result<(), NoMemory>
        requires { T.fits value.now }
        ensures { OnOk result (self.new ≡ self.old ++ varstring (T.spelling value.now)) }
    {
        let from = self.bytes.len();
        value.write(self)?;
        let len = self.bytes.as_slice().len() - from;
        self.number(len as u64)?;
        self.bytes.turn(from, len);
        Ok(())
    }
}
