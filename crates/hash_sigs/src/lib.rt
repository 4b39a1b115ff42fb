//! The hash-based signatures LMS (RFC 8554) with SHA-256: the types LMS_SHA256_M32_H5 and LMS_SHA256_M32_H10 over
//! LMOTS_SHA256_N32_W8, their check, and the keys that sign so.
#![tactic(auto)]

mod check;
mod key;
pub mod laws;
mod nodes;
mod one_time;
mod origin;
mod signature;
mod strings;
mod tree;

pub use check::LmsCheck;
pub use key::LmsKey;
pub use keyed::NoMemory;
