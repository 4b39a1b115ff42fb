//! Laws of votes, each the contract of a function with nothing to do.
ghost use Rattle.vote_book.specs.Laws.{VoteLaws};

/// To a vote there is one answer, and the votes that a book gives are a history: heights never fall, and equal heights
/// have equal ids. It does nothing when it runs.
pub fn votes()
    ensures { VoteLaws }
{}
