//! The lines that commands print: verdicts, blocks and programs, and refusals with the values that break their rules.
#![tactic(auto)]

mod line;
mod refused;
mod words;

pub use line::{accepted_line, block_line, program_line, verdict_line};
pub use refused::{refused_block, refused_file, refused_hex, refused_next, refused_start};
pub use words::{hex_word, hex_words};
