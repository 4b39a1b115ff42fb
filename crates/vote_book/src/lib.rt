//! What a block signer keeps of its votes, and the programs that ask for signatures of a quorum of them.
#![tactic(auto)]

mod ballot;
mod book;
pub mod laws;
mod quorum;
mod reading;

pub use ballot::Ballot;
pub use book::{Book, Vote, decode_book};
pub use quorum::quorum_program;
pub use reading::read_quorum;
pub use wire::{DataKind, NoMemory};
