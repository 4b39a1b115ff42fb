//! Laws of plans and of replies, each the contract of a function with nothing to do.
ghost use Rattle.replies.specs.Laws.{PlanLaws, StepLaws, TellLaws};

/// How far a plan came after another, and that a read leaves what the files hold.
pub fn plans_join()
    ensures { PlanLaws }
{}

/// What the steps of two lists come to together, and what steps that were done leave of the files.
pub fn steps_join()
    ensures { StepLaws }
{}

/// What was begun of a reply is seen of the printed bytes, of the reads and of the writes, each for itself, and of the
/// counts of faults.
pub fn replies_tell()
    ensures { TellLaws }
{}
