//! Records that are read from bytes and written to them, and lists and frames of them.
ghost use Rattle.std.specs.Prelude.{◌≡◌, ◌≤◌, ◌++◌, ◌-◌, ℕ, List, length, Ok, Err, OnOk, OnErr, IfOk};
ghost use Rattle.wire.specs.Spelling.{varstring};
ghost use Rattle.wire.specs.Places.{Place, Fault, Reading, Reads, Gives, start, passes_room, item_at, items_at};
ghost use Rattle.wire.specs.Places.{many_at, whole_at, frame_at, when_at};
ghost use Rattle.wire.specs.FirstFault.{Faults, WholeFault};
ghost use Rattle.wire.specs.Readers.{IsReader, IsWholeReader};
ghost use Rattle.wire.specs.LayoutLaws.{SpellingLaws};

use crate::{Bytes, Cursor, DataFault, DataKind, Listed, NoMemory, Writer};
use std::alloc::Global;

/// A record: which of its values are within the limits, how those are spelled, and the first fault of other bytes.
pub trait Record: Drop + Sized {
    ghost fits: { Self → Type 0 };

    ghost spelling: { Self → List ℕ };

    ghost faults: { Faults };

    ghost reading: { Place → Reading Self };

    /// Reads a record at a place of the bytes.
    fn read(alloc: Global, cursor: &mut Cursor<'_>) -> Result<Self, DataFault>
        ensures { Reads result cursor.new (reading cursor.old) };

    /// Writes the spelling of a record. `encode` and `put` are the calls for those who have no writer.
    fn write(&self, out: &mut Writer) -> Result<(), NoMemory>
        requires { fits self.now }
        ensures { OnOk result (out.new ≡ out.old ++ spelling self.now) };

    /// The reading is right: what it reads fits and was spelled, what fits and is spelled is read, and what it reports
    /// is the first fault. It does nothing when it runs.
    fn readings()
        ensures { IsReader fits spelling faults reading };
}

/// The laws of a record, for the proofs of crates above: all bytes begin with the spelling of one value or have one
/// first fault at one place, no spelling begins another, and one reading is that of all of the bytes. It does nothing
/// when it runs.
pub fn record_readings<T: Record>()
    ensures spellings { SpellingLaws T.fits T.spelling T.faults }
    ensures whole { IsWholeReader T.fits T.spelling T.faults (whole_at T.reading) }
{
    T::readings();
}

/// The record that the bytes spell, all of the bytes.
pub fn decode<T: Record>(alloc: Global, bytes: &[u8]) -> Result<T, DataFault>
    // What is read is spelled so.
    ensures found { IfOk result (λ x. T.fits x × (bytes.now ≡ T.spelling x)) }

    // What is spelled so is read, unless memory runs out.
    ensures only { (x : _) → T.fits x → bytes.now ≡ T.spelling x → Gives result (Ok x) }

    // What is reported is the first fault, and the first fault is reported, unless memory runs out.
    ensures fault { (f : Fault)
        → result ≡ Err (DataFault.At f.at f.kind)
        → WholeFault T.fits T.spelling T.faults bytes.now f.at f.kind }
    ensures told { (f : Fault) → WholeFault T.fits T.spelling T.faults bytes.now f.at f.kind → Gives result (Err f) }

    // The same as a function of the bytes.
    ensures exact { Gives result (whole_at T.reading (start bytes.now)) }
{
    T::readings();
    all_of(alloc, Cursor::new(bytes))
}

// The record that all bytes from this place on spell.
fn all_of<T: Record>(alloc: Global, cursor: Cursor<'_>) -> Result<T, DataFault>
    ensures { Gives result (whole_at T.reading cursor.entry) }
{
    let mut cursor = cursor;
    let record = T::read(alloc, &mut cursor)?;
    if !cursor.is_at_end() {
        return Err(cursor.fault(DataKind::Trailing));
    }
    Ok(record)
}

/// The spelling of a record.
pub fn encode<T: Record>(alloc: Global, value: &T) -> Result<Vec<u8>, NoMemory>
    requires { T.fits value.now }
    ensures { IfOk result (λ bytes. bytes.items ≡ T.spelling value.now) }
{
    let mut out = Writer::new(alloc)?;
    value.write(&mut out)?;
    Ok(out.end())
}

/// The spelling of a record after its length.
pub fn encode_frame<T: Record>(alloc: Global, value: &T) -> Result<Vec<u8>, NoMemory>
    requires { T.fits value.now }
    ensures { IfOk result (λ bytes. bytes.items ≡ varstring (T.spelling value.now)) }
{
    let mut out = Writer::new(alloc)?;
    out.frame(value)?;
    Ok(out.end())
}

/// Appends the spelling of a record. After a refusal `out` is as it was.
pub fn put<T: Record>(alloc: Global, out: &mut Bytes, value: &T) -> Result<(), NoMemory>
    requires { T.fits value.now }
    ensures ok { OnOk result (out.new ≡ out.old ++ T.spelling value.now) }
    ensures err { OnErr result (out.new ≡ out.old) }
{
    let held = encode(alloc, value)?;
    out.extend_from_slice(held.as_slice())
}

/// Appends a record after its length. After a refusal `out` is as it was.
pub fn put_frame<T: Record>(alloc: Global, out: &mut Bytes, value: &T) -> Result<(), NoMemory>
    requires { T.fits value.now }
    ensures ok { OnOk result (out.new ≡ out.old ++ varstring (T.spelling value.now)) }
    ensures err { OnErr result (out.new ≡ out.old) }
{
    let held = encode_frame(alloc, value)?;
    out.extend_from_slice(held.as_slice())
}

const MAX_STRING_LEN: u64 = 65_536;

/// A string of at most 65,536 bytes, after its length.
impl Record for Bytes {
    ghost use Rattle.wire.specs.Spelling.{varstring};
    ghost use Rattle.wire.specs.Places.{text_at};
    ghost use Rattle.wire.specs.Layout.{Text, Fits};
    ghost use Rattle.wire.specs.FirstFault.{FirstFault};

    ghost fits = { Fits (Text 65536) };

    ghost spelling = { varstring };

    ghost faults = { FirstFault (Text 65536) };

    ghost reading = { text_at 65536 };

    fn read(alloc: Global, cursor: &mut Cursor<'_>) -> Result<Bytes, DataFault> {
        cursor.text(alloc, MAX_STRING_LEN)
    }

    fn write(&self, out: &mut Writer) -> Result<(), NoMemory> {
        out.text(self.as_slice())
    }

    fn readings() {}
}

impl<'a> Cursor<'a> {
    /// A count of at most this value, and so many records. Where there is a room, they may take so many bytes together:
    /// the one that passes it is refused at its first byte, unless it has a fault of its own.
    pub fn many<T: Record>(
        &mut self,
        alloc: Global,
        most: u64,
        room: Option<u64>,
    ) -> Result<Listed<T>, DataFault>
        ensures { Reads result self.new (many_at most room T.reading self.old) }
    {
        let count = self.number(most)?;
        self.items(alloc, count, room)
    }

    /// A length of at most this value, and one record, which takes so many bytes. A byte after it is its fault.
    pub fn frame<T: Record>(&mut self, alloc: Global, most: u64) -> Result<T, DataFault>
        ensures { Reads result self.new (frame_at most T.reading self.old) }
    {
        let held = self.held(most)?;
        all_of(alloc, held)
    }

    /// A record, where it stands there at all.
    pub fn when<T: Record>(&mut self, alloc: Global, there: bool) -> Result<Option<T>, DataFault>
        ensures { Reads result self.new (when_at there T.reading self.old) }
    {
        if there {
            Ok(Some(T::read(alloc, self)?))
        } else {
            Ok(None)
        }
    }

    // So many records.
    fn items<T: Record>(
        &mut self,
        alloc: Global,
        count: u64,
        room: Option<u64>,
    ) -> Result<Listed<T>, DataFault>
        ensures { Reads result self.new (items_at room T.reading count 0 self.old) }
    {
        let from = self.at();
        let mut items = Listed::new(alloc);
        // A count is no reason to ask for more room than the bytes that are left could fill.
        items.reserve(self.rest().len().min(count as usize))?;
        for _ in 0..count {
            items.push(self.item(alloc, room, from)?)?;
        }
        Ok(items)
    }

    // One more record of those that began at this byte.
    fn item<T: Record>(
        &mut self,
        alloc: Global,
        room: Option<u64>,
        from: u64,
    ) -> Result<T, DataFault>
        requires { from ≤ self.old.at }
        ensures read { Reads result self.new (item_at room T.reading (self.old.at - from) self.old) }
        ensures on { OnOk result (self.old.at ≤ self.new.at) }
    {
        let at = self.at();
        let item = self.record(alloc)?;
        if passes_room(room, self.at() - from) {
            return Err(DataFault::At {
                at,
                kind: DataKind::TooBig,
            });
        }
        Ok(item)
    }

    // A record, which is no step back.
    fn record<T: Record>(&mut self, alloc: Global) -> Result<T, DataFault>
        ensures read { Reads result self.new (T.reading self.old) }
        ensures on { OnOk result (self.old.at ≤ self.new.at) }
    {
        T::readings();
        let _bytes = self.rest();
        T::read(alloc, self)
    }
}

// So many bytes pass the room that there is.
fn passes_room(room: Option<u64>, size: u64) -> bool
    ensures { result ≡ passes_room room size }
{
    match room {
        Some(most) => size > most,
        None => false,
    }
}
