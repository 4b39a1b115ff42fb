//! The book of votes, and the votes that it takes.
ghost use Rattle.std.specs.Prelude.{◌≡◌, ◌≢◌, ℕ, ◌<◌, ◌^◌, Some, None, Ok, Err, IfOk, IfErr};
ghost use Rattle.wire.specs.Places.{Gives, start, whole_at};
ghost use Rattle.wire.specs.declared.fault.DataFault.TheVariants as faults;
ghost use Rattle.vote_book.specs.Spelling.{Kept, BookFits, BookFault, ballot_at, book_spelling};
ghost use Rattle.vote_book.specs.Votes.{Answers, kept_after};

use crate::{Ballot, NoMemory};
use std::alloc::Global;
use std::marker::Model;
use wire::{Cursor, DataFault, DataKind, Id, MAX_NUMBER, encode, record_readings};

/// What a book answers to a vote.
#[derive(Clone, Copy, Debug, PartialEq, Eq)]
pub enum Vote {
    /// No vote is kept, or one at a smaller height.
    New,
    /// The kept vote has this height and this id.
    Same,
    /// The kept vote, which is reported, is at a greater height, or at this one with another id.
    Refused { height: u64, kept: Id },
}

/// The book of a block signer. It keeps the last vote, and is seen as that.
#[derive(Debug, Drop)]
pub struct Book {
    last: Option<Ballot>,
}

impl Model for Book {
    ghost use Rattle.vote_book.specs.Spelling.{Kept, BookFits};

    ghost Value = { Kept };

    ghost view = { λ book. book.last };

    ghost invariant = { λ book. BookFits book.last };
}

impl Book {
    /// A book that keeps no vote.
    pub fn new() -> Book
        ensures { result ≡ None }
    {
        Book { last: None }
    }

    /// What `vote` would answer. It changes nothing, and takes no memory.
    pub fn peek(&self, height: u64, id: &Id) -> Vote
        ensures { Answers self.now (record { height = height; id = id.now }) result }
    {
        let Some(last) = &self.last else {
            return Vote::New;
        };
        if last.height < height {
            return Vote::New;
        }
        if last.height == height && last.id == *id {
            return Vote::Same;
        }
        Vote::Refused {
            height: last.height,
            kept: last.id,
        }
    }

    /// Votes for the block of this id at this height, which is below 2^63: a new vote is kept in place of the last one,
    /// and where the vote is refused, or the same again, the book stays as it was. It takes no memory.
    pub fn vote(&mut self, height: u64, id: &Id) -> Vote
        requires { height < 2 ^ 63 }
        ensures answer { Answers self.old (record { height = height; id = id.now }) result }
        ensures kept { self.new ≡ kept_after self.old (record { height = height; id = id.now }) result }
    {
        let answer = self.peek(height, id);
        if let Vote::New = answer {
            self.last = Some(Ballot { height, id: *id });
        }
        answer
    }

    /// The book's spelling: nothing, or the height and the id of its last vote.
    pub fn encode(&self, alloc: Global) -> Result<Vec<u8>, NoMemory>
        ensures { IfOk result (λ bytes. bytes.items ≡ book_spelling self.now) }
    {
        match &self.last {
            None => Ok(Vec::new(alloc)),
            Some(last) => Ok(encode(alloc, last)?),
        }
    }
}

/// The book that the bytes spell, all of the bytes. Else the first fault of them: the place of its first byte, counted
/// from 0, and its kind. It takes no memory.
pub fn decode_book(b: &[u8]) -> Result<Book, (u64, DataKind)>
    // What is read is spelled so.
    ensures found { IfOk result (λ book. BookFits book × (b.now ≡ book_spelling book)) }

    // What is spelled so is read.
    ensures only { (kept : Kept) → BookFits kept → b.now ≡ book_spelling kept → result ≡ Ok kept }

    // What is reported is the first fault, and the first fault is reported.
    ensures fault { IfErr result (λ fault. BookFault b.now fault.0 fault.1) }
    ensures told { (at : ℕ) (kind : DataKind) → BookFault b.now at kind → result ≡ Err (at, kind) }
{
    record_readings::<Ballot>();
    if b.is_empty() {
        return Ok(Book::new());
    }
    match read_ballot(b) {
        Ok(last) => Ok(Book { last: Some(last) }),
        Err(DataFault::At { at, kind }) => Err((at, kind)),
        Err(DataFault::NoMemory) => unreachable!(),
    }
}

// The vote that all of the bytes spell.
fn read_ballot(b: &[u8]) -> Result<Ballot, DataFault>
    ensures exact { Gives result (whole_at ballot_at (start b.now)) }
    ensures no_memory { result ≢ Err faults.NoMemory }
{
    let mut cursor = Cursor::new(b);
    let height = cursor.number(MAX_NUMBER)?;
    let id = cursor.id()?;
    if !cursor.is_at_end() {
        return Err(cursor.fault(DataKind::Trailing));
    }
    Ok(Ballot { height, id })
}
