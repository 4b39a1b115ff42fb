//! What holds of the definitions, each the contract of a function with nothing to do.
ghost use Rattle.ivy_value.specs.Laws.{OneIsSelected};

/// By the arguments of a spending one clause of a contract is selected at most. It does nothing when it runs.
pub fn selection()
    ensures one { OneIsSelected }
{}
