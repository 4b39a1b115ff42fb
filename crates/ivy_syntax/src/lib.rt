//! Texts of the contract language Ivy: their tokens and limits, and the trees that they are read as and printed from.
#![tactic(auto)]

mod answer;
mod expr;
mod fault;
mod laws;
mod level;
mod lexeme;
mod limits;
mod lists;
mod parser;
mod printer;
mod reading;
mod sizes;
mod tokens;
mod tree;

pub use answer::parse;
pub use fault::ParseFault;
pub use laws::{
    limits_by_tree, printed_sources, source_sizes, texts, token_readings, token_spellings,
};
pub use printer::print;
pub use sizes::{literal_bytes, nodes};
pub use tree::{
    ClauseTree, ClauseTrees, Contract, Contracts, Expr, Exprs, Form, Group, Groups, Op, Req, Reqs,
    Source, Stmt, Stmts, Text, Word, Words,
};
pub use wire::NoMemory;
