//! What is inferred of an expression by itself.
ghost use Rattle.std.specs.Prelude.{◌≡◌};
ghost use Rattle.ivy_check.specs.Types.{has_type, have_one_type, has_numeric_type, has_plain_type};

use crate::types::IvyType;

/// What is inferred of an expression by itself.
#[derive(Clone, Copy)]
pub(crate) struct Inferred {
    /// A number, also under unary minuses: its place may give it another type.
    pub(crate) is_literal: bool,
    /// How many members it has as a list, and nothing where it is no list.
    pub(crate) members: Option<usize>,
    /// Its type. A list has none.
    pub(crate) ivy_type: Option<IvyType>,
}

/// It has this type.
pub(crate) fn has_type(expected: IvyType, ivy_type: Option<IvyType>) -> bool
    ensures { result ≡ has_type expected ivy_type }
{
    match ivy_type {
        Some(ivy_type) => ivy_type.same_type(expected),
        None => false,
    }
}

/// Both have one type.
pub(crate) fn have_one_type(ivy_type: Option<IvyType>, other: Option<IvyType>) -> bool
    ensures { result ≡ have_one_type ivy_type other }
{
    match ivy_type {
        Some(ivy_type) => has_type(ivy_type, other),
        None => false,
    }
}

/// It has a numeric type.
pub(crate) fn has_numeric_type(ivy_type: Option<IvyType>) -> bool
    ensures { result ≡ has_numeric_type ivy_type }
{
    match ivy_type {
        Some(ivy_type) => ivy_type.is_numeric(),
        None => false,
    }
}

/// It has a type that is neither numeric nor Boolean.
pub(crate) fn has_plain_type(ivy_type: Option<IvyType>) -> bool
    ensures { result ≡ has_plain_type ivy_type }
{
    match ivy_type {
        Some(ivy_type) => ivy_type.is_plain(),
        None => false,
    }
}
