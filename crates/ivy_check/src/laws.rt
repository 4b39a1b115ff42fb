//! What holds of the definitions, each the contract of a function with nothing to do.
ghost use Rattle.ivy_check.specs.Laws.{EachHasOneAnswer, NothingIsLeft, EachHasOneType, NoFaultIsTyped};
ghost use Rattle.ivy_check.specs.Laws.{NoFaultIsWellTyped};
ghost use Rattle.ivy_check.specs.Parameters.{ParameterPlaces};
ghost use Rattle.ivy_check.specs.Counts.{UseCounts};

/// Of every source there is one answer: one fault, or none. In a source with none, each value of a clause is disposed
/// of and each parameter is used. It does nothing when it runs.
pub fn type_faults()
    ensures one { EachHasOneAnswer }
    ensures whole { NothingIsLeft }
{}

/// By the language's table of types an expression has one type at most, and where the types of all
/// parameters exist, it has no fault of its own exactly where it has a type. It does nothing when it runs.
pub fn expression_types()
    ensures one { EachHasOneType }
    ensures typed { NoFaultIsTyped }
{}

/// A source has no type fault exactly where it is well typed, as the language's rules say it of declared names, of
/// types, of values and of uses. It does nothing when it runs.
pub fn well_typed()
    ensures typed { NoFaultIsWellTyped }
{}

/// In a well-typed clause no two parameters have one name, so each stands at the place of its name. A name stands for a
/// parameter of a type exactly where it has a place and the parameter there has the type. It does nothing when it
/// runs.
pub fn parameter_places()
    ensures { ParameterPlaces }
{}

/// What is counted of a name is what stands there; each parameter of a well-typed clause or contract is used; and there
/// are no more uses in a clause than it has nodes, and no more keys. It does nothing when it runs.
pub fn use_counts()
    ensures { UseCounts }
{}
