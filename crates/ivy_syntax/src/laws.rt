//! Laws of the definitions that the contracts cite, each with an empty body.

ghost use Rattle.ivy_syntax.specs.Tokens.{EachHasOneReading, IsReadBack};
ghost use Rattle.ivy_syntax.specs.TreeLimits.{LimitsByTree};
ghost use Rattle.ivy_syntax.specs.Printing.{PrintLaws};
ghost use Rattle.ivy_syntax.specs.Sizes.{SizeLaws};
ghost use Rattle.ivy_syntax.specs.Texts.{TextLaws};

/// Each text has exactly one list of tokens.
pub fn token_readings()
    ensures { EachHasOneReading }
{}

/// The text that writes tokens is read as these tokens.
pub fn token_spellings()
    ensures { IsReadBack }
{}

/// A text has no fewer bytes than its source has nodes, and no fewer than its literals have.
pub fn source_sizes()
    ensures { SizeLaws }
{}

/// The tokens of a source pass no counted limit exactly where its tree has no more of anything than those limits say.
/// Nesting is no part of it: a tree has no parentheses.
pub fn limits_by_tree()
    ensures { LimitsByTree }
{}

/// What the tokens that are printed read as, and that they have no parentheses but those that are needed.
pub fn printed_sources()
    ensures { PrintLaws }
{}

/// Each text has one answer: the source that it is, or its fault.
pub fn texts()
    ensures { TextLaws }
{}
