//! The outside world as two traits: files by name, and a sink for what is printed. Each says as much of itself as it
//! can: what it holds, what was asked of it, and how often it failed.
//!
//! `StdFiles` and `StdSink` are the files and the standard output of a runtime, which say nothing of their contents.
//! `MemFiles` and `MemSink` stand in for them in tests and say everything. The functions without a body are laws of
//! what a crash may leave.
#![tactic(auto)]

mod begun;
mod both;
mod contents;
mod failing;
mod fault;
mod files;
mod laws;
mod mem_files;
mod mem_sink;
mod outside;
mod sink;
mod std_files;
mod std_sink;
mod tally;
mod whole;

pub use begun::{BegunKind, BegunRead, BegunWrite};
pub use both::Both;
pub use fault::FileFault;
pub use files::Files;
pub use laws::{done_is_kept, moments_join, others_stay, runs_join, starts_kept};
pub use mem_files::MemFiles;
pub use mem_sink::MemSink;
pub use outside::Outside;
pub use sink::Sink;
pub use std::alloc::AllocError as NoMemory;
pub use std_files::StdFiles;
pub use std_sink::StdSink;
