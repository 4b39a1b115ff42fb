//! Laws of what a crash may leave: each is the contract of a function that does nothing.
ghost use Rattle.outside.specs.CrashLaws.{RunsJoin, MomentsJoin, DoneIsKept, OthersStay, StartsKept};

/// Writes lead on as their two parts do, one after the other, so a run may be taken apart at any place.
pub fn runs_join()
    ensures { RunsJoin }
{}

/// A moment of two parts of a run is one of the first, or the whole first part and then one of the second.
pub fn moments_join()
    ensures { MomentsJoin }
{}

/// After writes that were all done, a crash leaves what a read gives.
pub fn done_is_kept()
    ensures { DoneIsKept }
{}

/// Writes of other names leave a name as it was, in a crash too.
pub fn others_stay()
    ensures { OthersStay }
{}

/// Before any write, a crash leaves what a read gives.
pub fn starts_kept()
    ensures { StartsKept }
{}
