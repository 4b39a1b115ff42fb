//! The words of commands, read as numbers and as bytes, and the lines that commands print, put together of words.
#![tactic(auto)]

mod lines;
mod words;

pub use lines::{Piece, line};
pub use words::hex_word;
