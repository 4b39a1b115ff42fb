//! Filters as trees.
use sqlite_items::Boxed;

/// A text, as its bytes.
pub type Text = wire::Bytes;

/// The rows that a filter is for.
#[derive(Clone, Copy, Debug, PartialEq, Eq)]
pub enum RowKind {
    Transactions,
    Outputs,
    Assets,
}

/// A filter of rows of a kind.
#[derive(Debug, Drop)]
pub struct Filter {
    pub kind: RowKind,
    /// The empty filter, which holds of every row, has none.
    pub root: Option<Cond>,
}

/// A condition on a row.
#[derive(Debug, Drop)]
pub enum Cond {
    Or(Boxed<Cond>, Boxed<Cond>),
    And(Boxed<Cond>, Boxed<Cond>),
    /// Some input of the row where `inputs`, and else some output, meets the condition inside.
    Scope { inputs: bool, inner: Boxed<Cond> },
    /// The attribute of this name is printed as the value is.
    Is { name: Text, value: FilterValue },
}

/// What an attribute is compared with.
#[derive(Debug, Drop)]
pub enum FilterValue {
    /// The bytes between the two `'`.
    Quoted(Text),
    /// At most 2^63 - 1.
    Number(u64),
    /// The number of a parameter, from 1 to 99.
    Param(u64),
}
