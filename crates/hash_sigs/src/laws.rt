//! Laws of the definitions, each the contract of a function with nothing to do.
ghost use Rattle.hash_sigs.specs.Laws.{SignaturesAreGood, SignaturesShowLeaves, LeavesAreApart, Sizes};

/// Each signature of a key is good for its public key: the chains are gone on with to their ends, and the path leads to
/// the root.
pub fn signatures_are_good()
    ensures { SignaturesAreGood }
{}

/// A signature shows the number of its leaf.
pub fn signatures_show_leaves()
    ensures { SignaturesShowLeaves }
{}

/// Two signatures of a key with different leaves are different, and show it in their first four bytes.
pub fn leaves_are_apart()
    ensures { LeavesAreApart }
{}

/// A key or a signature of another size is never good.
pub fn sizes()
    ensures { Sizes }
{}
