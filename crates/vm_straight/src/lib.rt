//! Straight code on the virtual machine: pushes and plain instructions, one after the other.
#![tactic(auto)]

mod known;
pub mod laws;
