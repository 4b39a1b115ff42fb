//! What holds of the definitions, each the contract of a function with nothing to do.
ghost use Rattle.wire.specs.Laws.{VarintLaws, VarstringLaws};
ghost use Rattle.wire.specs.LayoutLaws.{LayoutLaws};

/// The laws of spellings, for the proofs of crates above: no spelling begins another, what is spelled is read again
/// whatever follows it, and what is read is spelled so. It does nothing when it runs.
pub fn spellings()
    ensures numbers { VarintLaws }
    ensures strings { VarstringLaws }
{}

/// The laws of records, for the proofs of crates above: for every layout, all bytes begin with the spelling of one
/// value or have one first fault at one place, and no spelling begins another. It does nothing when it runs.
pub fn layout_readings()
    ensures { LayoutLaws }
{}
