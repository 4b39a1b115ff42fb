//! What words say: bytes in hex.
ghost use Rattle.std.specs.Prelude.{◌≡◌, ◌≤◌, length, IfOk, IfSome};
ghost use Rattle.word_lines.specs.Word.{hex_of};

use std::alloc::Global;
use wire::{Bytes, NoMemory};

/// The digits that a hex word has at most.
const HEX_MOST: usize = 131_072;

/// The bytes of a hex word: an even number of digits 0-9, a-f, A-F, at most 131,072.
pub fn hex_word(alloc: Global, word: &str) -> Result<Option<Bytes>, NoMemory>
    ensures reads { IfOk result (λ bytes. bytes ≡ hex_of word.now) }
    ensures short { IfOk result (λ bytes. IfSome bytes (λ b. length b ≤ 65536)) }
{
    if word.len() > HEX_MOST {
        return Ok(None);
    }
    match hex::decode(alloc, word) {
        Ok(bytes) => Ok(Some(Bytes::from_vec(bytes))),
        Err(hex::FromHexError::OutOfMemory) => Err(NoMemory),
        Err(_) => Ok(None),
    }
}
