//! Transactions and blocks, and how they are spelled in bytes. A record is the spellings of its fields one after the
//! other, in a fixed order, with nothing between them. Each value has one spelling, and bytes that spell none have one
//! first fault.
#![tactic(auto)]

mod block;
mod decode;
mod encode;
mod files;
mod header;
mod input;
mod laws;
mod lists;
mod output;
mod output_body;
mod records;
mod tx;
mod tx_records;

pub use block::Block;
pub use decode::{decode_block, decode_tx};
pub use encode::{encode_block, encode_header, encode_tx};
pub use files::{block_files, frame, read_blocks};
pub use header::Header;
pub use input::{Input, Issue, Spend};
pub use laws::{block_readings, tx_readings};
pub use lists::{Blocks, Ids, Inputs, Outputs, Txs};
pub use output::{Control, Output, Retire};
pub use output_body::OutputBody;
pub use tx::Tx;
pub use wire::{Args, Bytes, DataFault, DataKind, FramesFault, Id, NoMemory};
