//! Hex words in their places. One that is none is refused.
ghost use Rattle.std.specs.Prelude.{◌≡◌, ◌+◌, ◌<◌, ◌≤◌, ◌^◌, length, IfOk, map, string_bytes};
ghost use Rattle.std.specs.List.{AllByRecursion};
ghost use Rattle.replies.specs.Recipe.{gives};
ghost use Rattle.replies.specs.Runs.{Checks};
ghost use Rattle.command_lines.specs.Words.{hex_at, hex_all};

use crate::refused::refused_hex;
use replies::Stop;
use std::alloc::Global;
use wire::{Args, Bytes};

/// The bytes of the hex word at this place, at most 65,536. Another word is refused.
pub fn hex_word(alloc: Global, word: &str, place: u64) -> Result<Bytes, Stop>
    ensures reads { Checks (λ bytes. bytes) (gives (hex_at place word.now)) result }
    ensures short { IfOk result (λ bytes. length bytes ≤ 65536) }
{
    match word_lines::hex_word(alloc, word) {
        Ok(Some(bytes)) => Ok(bytes),
        Ok(None) => Err(refused_hex(alloc, place)),
        Err(error) => Err(Stop::from(error)),
    }
}

/// The bytes of hex words in order, each at most 65,536, the first of them at this place. The first that is no hex word
/// is refused.
pub fn hex_words(alloc: Global, words: &[String], place: u64) -> Result<Args, Stop>
    requires { place + length words.now < 2 ^ 64 }
    ensures reads { Checks (λ args. args) (gives (hex_all place (map string_bytes words.now))) result }
    ensures number { IfOk result (λ args. length args ≡ length words.now) }
    ensures short { IfOk result (λ args. AllByRecursion (λ bytes. length bytes ≤ 65536) args) }
{
    let mut args = Args::new(alloc);
    for (k, word) in words.iter().enumerate() {
        let bytes = hex_word(alloc, word.as_str(), place + k as u64)?;
        args.push(bytes)?;
    }
    Ok(args)
}
