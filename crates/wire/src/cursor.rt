//! A place in bytes, and the fields that are read there. After a fault the place is of no use.
ghost use Rattle.std.specs.Prelude.{◌≡◌, ◌≢◌, ◌↔◌, ◌==◌, ◌≤◌, [], length, drop, IsTrue, Option, Some, None, Err};
ghost use Rattle.wire.specs.Spelling.{AreBytes};
ghost use Rattle.wire.specs.Places.{Reads, Holds, start, moved, number_at, raw_at, text_at, kind_at, byte_of_at};
ghost use Rattle.wire.specs.Places.{u32_at};

use crate::{Bytes, DataFault, DataKind, Id, take_varint, take_varstring};
use std::alloc::Global;
use std::marker::Model;

const ID_LEN: u64 = 32;

/// How many bytes were passed, and those that are left. Each call reads one field, and reports its fault at its first
/// byte.
#[derive(Drop)]
pub struct Cursor<'a> {
    at: u64,
    rest: &'a [u8],
}

impl<'a> Model for Cursor<'a> {
    ghost use Rattle.std.specs.Prelude.{◌+◌, ◌<◌, ◌^◌, length};
    ghost use Rattle.wire.specs.Places.{Place};

    ghost Value = { Place };

    ghost view = { λ c. record { at = c.at; rest = c.rest.now } };

    ghost invariant = { λ c. c.at + length c.rest.now < 2 ^ 63 };
}

impl<'a> Cursor<'a> {
    /// The place of the first of these bytes.
    pub fn new(bytes: &'a [u8]) -> Cursor<'a>
        ensures { result ≡ start bytes.now }
    {
        Cursor { at: 0, rest: bytes }
    }

    /// How many bytes were passed.
    pub fn at(&self) -> u64
        ensures { result ≡ self.now.at }
    {
        self.at
    }

    // The bytes that are left, each below 256.
    pub(crate) fn rest(&self) -> &'a [u8]
        ensures value { result.now ≡ self.now.rest }
        ensures bytes { AreBytes result.now }
    {
        let rest = self.rest;
        are_bytes(rest);
        rest
    }

    /// No byte is left.
    pub fn is_at_end(&self) -> bool
        ensures { result ≡ (length self.now.rest == 0) }
    {
        self.rest.is_empty()
    }

    /// A fault of what begins here.
    pub fn fault(&self, kind: DataKind) -> DataFault
        ensures { result ≡ DataFault.At self.now.at kind }
    {
        DataFault::At { at: self.at, kind }
    }

    // Goes on by so many bytes.
    fn pass(&mut self, len: u64)
        requires { len ≤ length self.old.rest }
        ensures { self.new ≡ moved self.old (drop len self.old.rest) }
    {
        self.rest = &self.rest[len as usize..];
        self.at += len;
    }

    /// A number of at most this value.
    pub fn number(&mut self, most: u64) -> Result<u64, DataFault>
        ensures read { Reads result self.new (number_at 0 most self.old) }
        ensures no_memory { result ≢ Err DataFault.NoMemory }
    {
        self.limited(0, most)
    }

    /// A number of at most this value, and not 0.
    pub fn amount(&mut self, most: u64) -> Result<u64, DataFault>
        ensures read { Reads result self.new (number_at 1 most self.old) }
        ensures no_memory { result ≢ Err DataFault.NoMemory }
    {
        self.limited(1, most)
    }

    // A number from the least to the most.
    #[tactic(auto, unfolding(crate::specs::Places::number_at))]
    fn limited(&mut self, least: u64, most: u64) -> Result<u64, DataFault>
        ensures read { Reads result self.new (number_at least most self.old) }
        ensures no_memory { result ≢ Err DataFault.NoMemory }
    {
        match take_varint(self.rest) {
            Ok((n, _)) if n > most => Err(self.fault(DataKind::TooBig)),
            Ok((n, _)) if n < least => Err(self.fault(DataKind::Zero)),
            Ok((n, len)) => {
                self.pass(len);
                Ok(n)
            }
            Err(fault) => Err(self.fault(DataKind::from(fault))),
        }
    }

    /// So many raw bytes.
    #[tactic(auto, unfolding(crate::specs::Places::raw_at))]
    pub fn raw<const N: usize>(&mut self) -> Result<[u8; N], DataFault>
        ensures read { Reads result self.new (raw_at N self.old) }
        ensures no_memory { result ≢ Err DataFault.NoMemory }
    {
        if self.rest.len() < N {
            return Err(self.fault(DataKind::Short));
        }
        let mut raw = [0; N];
        raw.copy_from_slice(&self.rest[..N]);
        self.pass(N as u64);
        Ok(raw)
    }

    /// An id.
    pub fn id(&mut self) -> Result<Id, DataFault>
        ensures read { Reads result self.new (raw_at 32 self.old) }
        ensures no_memory { result ≢ Err DataFault.NoMemory }
    {
        self.raw::<32>()
    }

    /// A string of at most so many bytes, after its length.
    #[tactic(auto, unfolding(crate::specs::Places::text_at))]
    pub fn text(&mut self, alloc: Global, most: u64) -> Result<Bytes, DataFault>
        ensures { Reads result self.new (text_at most self.old) }
    {
        match take_varstring(self.rest, most) {
            Ok((text, len)) => {
                let text = Bytes::from_slice(alloc, text)?;
                self.pass(len);
                Ok(text)
            }
            Err(fault) => Err(self.fault(DataKind::from(fault))),
        }
    }

    // The bytes after a length, as a place of their own.
    #[tactic(auto, unfolding(crate::specs::Places::text_at))]
    pub(crate) fn held(&mut self, most: u64) -> Result<Cursor<'a>, DataFault>
        ensures { Holds result self.new (text_at most self.old) }
    {
        match take_varstring(self.rest, most) {
            Ok((text, len)) => {
                self.pass(len);
                Ok(Cursor {
                    at: self.at - text.len() as u64,
                    rest: text,
                })
            }
            Err(fault) => Err(self.fault(DataKind::from(fault))),
        }
    }

    /// The number of a kind, one of so many, in one byte.
    #[tactic(auto, unfolding(crate::specs::Places::kind_at))]
    pub fn kind(&mut self, count: u8) -> Result<u8, DataFault>
        ensures read { Reads result self.new (kind_at count self.old) }
        ensures no_memory { result ≢ Err DataFault.NoMemory }
    {
        let Some(kind) = self.rest.first() else {
            return Err(self.fault(DataKind::Short));
        };
        let kind = *kind;
        if kind >= count {
            return Err(self.fault(DataKind::Kind));
        }
        self.pass(1);
        Ok(kind)
    }

    /// A byte that is one of these.
    #[tactic(auto, unfolding(crate::specs::Places::byte_of_at))]
    pub fn byte_of(&mut self, allowed: &[u8]) -> Result<u8, DataFault>
        ensures read { Reads result self.new (byte_of_at allowed.now self.old) }
        ensures no_memory { result ≢ Err DataFault.NoMemory }
    {
        let Some(byte) = self.rest.first() else {
            return Err(self.fault(DataKind::Short));
        };
        let byte = *byte;
        if !allowed.contains(&byte) {
            return Err(self.fault(DataKind::Kind));
        }
        self.pass(1);
        Ok(byte)
    }

    /// A number in four bytes, the most significant first.
    pub fn u32_be(&mut self) -> Result<u32, DataFault>
        ensures read { Reads result self.new (u32_at self.old) }
        ensures no_memory { result ≢ Err DataFault.NoMemory }
    {
        Ok(u32::from_be_bytes(self.raw::<4>()?))
    }
}

// A byte is below 256.
fn are_bytes(bytes: &[u8])
    ensures { AreBytes bytes.now }
{}
