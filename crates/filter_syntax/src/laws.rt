//! What holds of the definitions, each the contract of a function with nothing to do.
ghost use Rattle.filter_syntax.specs.Texts.{FilterLaws};
ghost use Rattle.filter_syntax.specs.Laws.{TokenLaws, ByLaws};
ghost use Rattle.filter_syntax.specs.Printing.{PrintLaws, GroupingLaws};

/// Each text has one list of tokens, and tokens that are written with one space between two are read again. It does
/// nothing when it runs.
pub fn tokens()
    ensures { TokenLaws }
{}

/// Each text has one answer as a list of names joined by commas, and a list of each name once has the same names, none
/// of them twice, in the order in which they first stand. It does nothing when it runs.
pub fn lists_of_names()
    ensures { ByLaws }
{}

/// Each text has one answer for each kind of rows: the filter that it is, or its fault. It does nothing when it runs.
pub fn filters()
    ensures { FilterLaws }
{}

/// What the tokens that are printed read as, and that they have no parentheses but those that are needed. It does
/// nothing when it runs.
pub fn printed_filters()
    ensures { PrintLaws }
{}

/// What the tokens read as where an operand that would stand in parentheses is bare. It does nothing when it runs.
pub fn groupings()
    ensures { GroupingLaws }
{}
