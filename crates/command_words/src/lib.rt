//! The grammar of words: the command that they say, with the words that it takes, or none.
#![tactic(auto)]

mod grammar;

pub use grammar::{Command, command_of};
