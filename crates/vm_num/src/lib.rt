//! What the virtual machine (Chain VM 1) calls an item, and what it reads an item as: bytes, a 64-bit number,
//! a truth value; the checked arithmetic of those numbers; and the pushes that a program is written with.
#![tactic(auto)]

mod failure;
pub mod laws;
mod number;
mod operations;
mod push;
mod sums;

pub use failure::Failure;
pub use number::{Num, read_num, truth, write_num};
pub use operations::{div, mul, rem, shl, shr};
pub use push::{push_bytes, push_int};
pub use std::alloc::AllocError as NoMemory;
pub use sums::{add, sub};
