//! Refusals of words, of files and of blocks.
ghost use Rattle.std.specs.Prelude.{◌≡◌, ◌++◌, IfOk, string_bytes};
ghost use Rattle.command_lines.specs.Line.{refused_hex, refused_file, refused_ledger, refused_block};
ghost use Rattle.command_lines.specs.Line.{start_words, refusal_words, tx_in_block, tx_words};
ghost use Rattle.word_lines.specs.Piece.{text_of};
ghost use Rattle.replies.specs.Refused.{RefusesBy};
ghost use Rattle.command_lines.specs.Refused.{words_of, tx_words_of};

use ledger_core::{BlockRefusal, StartFault};
use replies::{Stop, refusal};
use std::alloc::Global;
use tx_check::TxRefusal;
use wire::{DataKind, NoMemory};
use word_lines::Piece::{self, Hex, Kind, Nothing, Number, Sum, Why, Word};
use word_lines::line;

/// The refusal of the word at this place, which is no hex word. The command is at 0.
pub fn refused_hex(alloc: Global, place: u64) -> Stop
    ensures { RefusesBy (refused_hex place) result }
{
    refusal(alloc, "refused hex", &[Number(place)])
}

/// The refusal of the file of blocks that the word at this place names, for the record of this number, from 0, and what
/// is wrong at this byte of it.
pub fn refused_file(alloc: Global, place: u64, index: u64, at: u64, kind: DataKind) -> Stop
    ensures { RefusesBy (refused_file place index at kind) result }
{
    refusal(
        alloc,
        "refused file",
        &[Number(place), Number(index), Number(at), Kind(kind)],
    )
}

/// The refusal of a ledger whose first block starts no chain, and why.
pub fn refused_start(alloc: Global, why: StartFault) -> Stop
    ensures { RefusesBy (refused_ledger 0 (start_words why)) result }
{
    refused_ledger(alloc, 0, start_words(why))
}

/// The refusal of a ledger whose block of this number, from 0, does not extend those before it, and why.
pub fn refused_next(alloc: Global, index: u64, refusal: &BlockRefusal) -> Stop
    ensures { RefusesBy (refused_ledger index (refusal_words refusal.now)) result }
{
    refused_ledger(alloc, index, refusal_words(refusal))
}

fn refused_ledger(alloc: Global, index: u64, words: Words<'_>) -> Stop
    ensures { RefusesBy (refused_ledger index (words_of words.entry)) result }
{
    let Words(name, [a, b, c, d, e]) = words;
    refusal(
        alloc,
        "refused ledger",
        &[Number(index), Word(name), a, b, c, d, e],
    )
}

/// The line of a block that is refused, with the values that break the rule.
pub fn refused_block(alloc: Global, refusal: &BlockRefusal) -> Result<String, NoMemory>
    ensures { IfOk result (λ line. string_bytes line ≡ refused_block refusal.now) }
{
    let Words(name, [a, b, c, d, e]) = refusal_words(refusal);
    line(alloc, "refused", &[Word(name), a, b, c, d, e])
}

// The name of a refusal, and at most five values after it.
#[derive(Clone, Copy)]
struct Words<'a>(&'static str, [Piece<'a>; 5]);

fn two_values<'a>(name: &'static str, first: Piece<'a>, second: Piece<'a>) -> Words<'a>
    ensures { words_of result ≡ name.now ++ (text_of first.entry ++ text_of second.entry) }
{
    Words(name, [first, second, Nothing, Nothing, Nothing])
}

// Why a block starts no chain.
fn start_words(fault: StartFault) -> Words<'static>
    ensures { words_of result ≡ start_words fault }
{
    let name = match fault {
        StartFault::HeightNotOne => "I1",
        StartFault::PreviousNotZero => "I2",
        StartFault::VersionNotOne => "I3",
        StartFault::NotEmpty => "I4",
        StartFault::RootsNotEmpty => "I5",
        StartFault::NoMemory => "",
    };
    two_values(name, Nothing, Nothing)
}

// Why a block does not extend a chain, with the values.
fn refusal_words(refusal: &BlockRefusal) -> Words<'_>
    ensures { words_of result ≡ refusal_words refusal.now }
{
    match refusal {
        BlockRefusal::B1 { tip, given } => two_values("B1", Hex(tip), Hex(given)),
        BlockRefusal::B2 { wanted, given } => two_values("B2", Number(*wanted), Number(*given)),
        BlockRefusal::B3 { tip_time, given } => two_values("B3", Number(*tip_time), Number(*given)),
        BlockRefusal::B4 { given } => two_values("B4", Number(*given), Nothing),
        BlockRefusal::B5 { tip_version, given } => {
            two_values("B5", Number(*tip_version), Number(*given))
        }
        BlockRefusal::B6 { computed, given } => two_values("B6", Hex(computed), Hex(given)),
        BlockRefusal::B7 { kind, at } => two_values("B7", Why(*kind), Number(*at)),
        BlockRefusal::B8 { place, refusal } => after_place(*place, tx_words(refusal)),
        BlockRefusal::B9 { computed, given } => two_values("B9", Hex(computed), Hex(given)),
    }
}

// The refusal of a transaction, after its place in a block.
fn after_place<'a>(place: u64, words: TxWords<'a>) -> Words<'a>
    ensures { words_of result ≡ tx_in_block place (tx_words_of words.entry) }
{
    let TxWords(name, a, b, c) = words;
    Words("B8", [Number(place), Word(name), a, b, c])
}

// The name of a refusal of a transaction, and at most three values after it.
#[derive(Clone, Copy)]
struct TxWords<'a>(&'static str, Piece<'a>, Piece<'a>, Piece<'a>);

// Why a transaction is refused, with the values.
fn tx_words(refusal: &TxRefusal) -> TxWords<'_>
    ensures { tx_words_of result ≡ tx_words refusal.now }
{
    match refusal {
        TxRefusal::X1 { version } => TxWords("X1", Number(*version), Nothing, Nothing),
        TxRefusal::X2 { mintime, maxtime } => {
            TxWords("X2", Number(*mintime), Number(*maxtime), Nothing)
        }
        TxRefusal::X3 { mintime, time } => TxWords("X3", Number(*mintime), Number(*time), Nothing),
        TxRefusal::X4 { maxtime, time } => TxWords("X4", Number(*maxtime), Number(*time), Nothing),
        TxRefusal::X5 { input } => TxWords("X5", Number(*input), Nothing, Nothing),
        TxRefusal::X6 => TxWords("X6", Nothing, Nothing, Nothing),
        TxRefusal::X7 { input } => TxWords("X7", Number(*input), Nothing, Nothing),
        TxRefusal::X8 { input } => TxWords("X8", Number(*input), Nothing, Nothing),
        TxRefusal::X9 { input } => TxWords("X9", Number(*input), Nothing, Nothing),
        TxRefusal::X10 {
            asset,
            sum_in,
            sum_out,
        } => TxWords("X10", Hex(asset), Sum(*sum_in), Sum(*sum_out)),
        TxRefusal::X11 { input } => TxWords("X11", Number(*input), Nothing, Nothing),
        TxRefusal::X12 { input } => TxWords("X12", Number(*input), Nothing, Nothing),
        TxRefusal::X13 { output, id } => TxWords("X13", Number(*output), Hex(id), Nothing),
        TxRefusal::X14 { input, kind, at } => {
            TxWords("X14", Number(*input), Why(*kind), Number(*at))
        }
    }
}
