//! Filters of queries: read from texts and printed, and the lists of attributes that sums are made by.
#![tactic(auto)]

mod attributes;
mod by;
mod fault;
mod filter;
pub mod laws;
mod parser;
mod print;
mod tokens;
mod tree;
mod words;

pub use by::{By, parse_by};
pub use fault::FilterFault;
pub use filter::parse_filter;
pub use print::print_filter;
pub use tree::{Cond, Filter, FilterValue, RowKind, Text};
pub use wire::NoMemory;
