//! Strings of bytes, and how numbers and strings are spelled in bytes: a number is a varint, base 128 with the least
//! significant group first and the high bit set on all bytes but the last; a string is its length and its bytes.
#![tactic(auto)]

mod cursor;
mod decimals;
mod fault;
mod files;
mod laws;
mod listed;
mod numbers;
mod record;
mod strings;
mod writer;

pub use cursor::Cursor;
pub use decimals::decimal_within;
pub use fault::{DataFault, DataKind, WireFault};
pub use files::{FramesFault, file_readings, read_frames};
pub use laws::{layout_readings, spellings};
pub use listed::{Args, Bytes, Listed, Twin};
pub use numbers::{MAX_NUMBER, put_varint, take_varint};
pub use record::{Record, decode, encode, encode_frame, put, put_frame, record_readings};
pub use std::alloc::AllocError as NoMemory;
pub use strings::{copy_at, put_varstring, put_word, take_varstring};
pub use writer::Writer;

/// The name of an entry or an asset: 32 raw bytes.
pub type Id = [u8; 32];
