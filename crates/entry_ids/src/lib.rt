//! The ids of what a chain holds, for any hash. An entry has a type and a body of bytes, and its id is
//! `H("entryid:" ++ type ++ ":" ++ H(body))`. Where two bodies of one type have one id, the hash has a clash.
#![tactic(auto)]

mod asset;
mod entry;
mod header;
mod input;
mod lists;
mod output;
mod signing;
mod tx;

pub use asset::asset_id;
pub use header::block_id;
pub use input::{Named, Names, nonce_id};
pub use output::output_id;
pub use signing::sig_hash;
pub use tx::{TxIds, input_id, mux_id, result_id, tx_id, tx_ids};
pub use wire::NoMemory;
