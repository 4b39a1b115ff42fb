//! What a chain is given from outside to name and to trust: a hash for ids, a check of signatures, and keys that sign.
//! A hash and a check each stand for one function of the object and the arguments, a key for one of how many signatures
//! it gives before; every theorem above holds for any of them.
#![tactic(auto)]

mod hashes;
mod pile;
mod signatures;
mod signing;
mod table;

pub use hashes::{IdHash, Sha256Id};
pub use pile::Pile;
pub use signatures::{NoSigs, SigCheck};
pub use signing::{SignFault, SignKey};
pub use std::alloc::AllocError as NoMemory;
pub use table::TableCheck;
