//! The rows of the code table (Chain VM 1) that make an item of numbers or of strings of bytes, by code.
#![tactic(auto)]

mod bits;
mod bytes;
mod codes;
mod fault;
pub mod laws;
mod numbers;
mod signatures;

pub use bytes::bytes_row;
pub use fault::RowFault;
pub use numbers::number_row;
pub use signatures::multi_good;
