//! Refusals by their lines.
ghost use Rattle.replies.specs.Line.{refused_size};
ghost use Rattle.replies.specs.Refused.{RefusesBy};
ghost use Rattle.word_lines.specs.Piece.{text_of_line};

use crate::stop::Stop;
use std::alloc::Global;
use wire::NoMemory;
use word_lines::Piece::{self, Number};
use word_lines::line;

/// The refusal by the line of this head and these words, or out of memory for that line.
pub fn refusal(alloc: Global, head: &str, words: &[Piece]) -> Stop
    ensures { RefusesBy (text_of_line head.now words.now) result }
{
    match line(alloc, head, words) {
        Ok(line) => Stop::Refused(line),
        Err(NoMemory) => Stop::NoMemory,
    }
}

/// The refusal of a file that is too long, by the place of the word that names it, the command being at 0.
pub fn refused_size(alloc: Global, place: u64) -> Stop
    ensures { RefusesBy (refused_size place) result }
{
    refusal(alloc, "refused size", &[Number(place)])
}
