//! Lines put together of words.
ghost use Rattle.std.specs.Prelude.{◌≡◌, ◌++◌, IfOk, OnOk, string_bytes};
ghost use Rattle.word_lines.specs.Piece.{word_of, text_of, joined, text_of_line};

use std::alloc::{AllocError, Global};
use vm_num::Failure;
use wire::{DataKind, Id, NoMemory};

// The bytes that a line has room for from the start: two ids in hex, and some words before them.
const LINE_MOST: usize = 192;

/// A word of a line, or none.
#[derive(Clone, Copy)]
pub enum Piece<'a> {
    /// No word, and no space before one.
    Nothing,
    Word(&'a str),
    /// In decimal.
    Number(u64),
    /// A sum of amounts, in decimal.
    Sum(u128),
    /// In lower-case hex.
    Hex(&'a Id),
    /// The name of what is wrong with some bytes.
    Kind(DataKind),
    /// The name of what a program failed for.
    Why(Failure),
}

/// The line of a head and the words after it, with a space before each, and its newline. Its room is taken once, and
/// a line of at most 192 bytes never grows.
pub fn line(alloc: Global, head: &str, words: &[Piece]) -> Result<String, NoMemory>
    ensures { IfOk result (λ line. string_bytes line ≡ text_of_line head.now words.now) }
{
    let mut line = String::with_capacity(alloc, LINE_MOST)?;
    line.push_str(head)?;
    add_all(alloc, &mut line, words)?;
    line.push_str("\n")?;
    Ok(line)
}

fn add_all(alloc: Global, line: &mut String, words: &[Piece]) -> Result<(), AllocError>
    ensures { OnOk result (string_bytes line.new ≡ string_bytes line.old ++ joined words.now) }
{
    for word in words {
        add(alloc, line, *word)?;
    }
    Ok(())
}

// Adds a word after a space.
fn add(alloc: Global, line: &mut String, word: Piece) -> Result<(), AllocError>
    ensures { OnOk result (string_bytes line.new ≡ string_bytes line.old ++ text_of word.entry) }
{
    if let Piece::Nothing = word {
        return Ok(());
    }
    line.push_str(" ")?;
    add_word(alloc, line, word)
}

fn add_word(alloc: Global, line: &mut String, word: Piece) -> Result<(), AllocError>
    ensures { OnOk result (string_bytes line.new ≡ string_bytes line.old ++ word_of word.entry) }
{
    match word {
        Piece::Nothing => Ok(()),
        Piece::Word(word) => line.push_str(word),
        Piece::Number(number) => line.write(number),
        Piece::Sum(sum) => line.write(sum),
        Piece::Hex(id) => line.push_str(hex::encode(alloc, id.as_slice())?.as_str()),
        Piece::Kind(kind) => line.write(kind),
        Piece::Why(failure) => line.write(failure),
    }
}
