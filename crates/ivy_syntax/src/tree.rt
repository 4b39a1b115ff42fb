//! The syntax tree of an Ivy text. A place is the number of bytes that stand before it in the text.

use sqlite_items::{Boxed, Items};
use wire::{Bytes, Listed};

/// A string of bytes: a name, or what a literal stands for.
pub type Text = Bytes;

/// The contracts of a text, in order; at least one.
pub type Contracts = Listed<Contract>;

/// Groups of parameters, in order.
pub type Groups = Listed<Group>;

/// Names with their places, in order.
pub type Words = Listed<Word>;

/// The clauses of a contract, in order; at least one.
pub type ClauseTrees = Listed<ClauseTree>;

/// The requirements of a clause, in order.
pub type Reqs = Listed<Req>;

/// The statements of a clause, in order; at least one.
pub type Stmts = Listed<Stmt>;

/// The arguments of a call or the members of a list, in order.
pub type Exprs = Items<Expr>;

/// A name, and its place.
#[derive(Debug, Drop)]
pub struct Word {
    pub name: Text,
    pub at: u64,
}

/// A whole text.
#[derive(Debug, Drop)]
pub struct Source {
    pub contracts: Contracts,
}

/// `contract name(params) locks value { clauses }`.
#[derive(Debug, Drop)]
pub struct Contract {
    pub name: Word,
    pub params: Groups,
    pub value: Word,
    pub clauses: ClauseTrees,
}

/// `a, b: Kind`: parameters of one type.
#[derive(Debug, Drop)]
pub struct Group {
    pub names: Words,
    pub kind: Word,
}

/// `clause name(params) requires reqs { stmts }`.
#[derive(Debug, Drop)]
pub struct ClauseTree {
    pub name: Word,
    pub params: Groups,
    pub reqs: Reqs,
    pub stmts: Stmts,
}

/// `name: amount of asset`: a value that the spending transaction has to bring.
#[derive(Debug, Drop)]
pub struct Req {
    pub name: Word,
    pub amount: Expr,
    pub asset: Expr,
}

/// A statement. Its place is that of its keyword.
#[derive(Debug, Drop)]
pub enum Stmt {
    /// `verify expr`
    Verify { at: u64, expr: Expr },
    /// `lock value with program`
    Lock { at: u64, value: Word, program: Expr },
    /// `unlock value`
    Unlock { at: u64, value: Word },
}

/// An expression.
#[cycle(expression)]
#[derive(Debug, Drop)]
pub struct Expr {
    /// The first byte of its text, with an opening parenthesis round it included.
    pub from: u64,
    /// Its literal, name, function name, operator or opening bracket.
    pub at: u64,
    pub form: Form,
}

/// What an expression is.
#[cycle(expression)]
#[derive(Debug, Drop)]
pub enum Form {
    /// A number, at most 2^63 - 1.
    Number(u64),
    /// `true` or `false`
    Truth(bool),
    /// The bytes that the hex digits stand for.
    Hex(Text),
    /// The bytes between the quotes.
    Quoted(Text),
    /// A name that is used.
    Name(Text),
    /// `name(args)`
    Call {
        name: Text,
        args: Exprs,
    },
    /// `[a, b]`; at least one member.
    Members(Exprs),
    /// `Not` or `Negate` of an operand.
    Unary {
        op: Op,
        arg: Boxed<Expr>,
    },
    /// Any other operator between its operands.
    Binary {
        op: Op,
        left: Boxed<Expr>,
        right: Boxed<Expr>,
    },
}

/// An operator.
#[derive(Clone, Copy, Debug, PartialEq, Eq)]
pub enum Op {
    /// `||`
    Or,
    /// `&&`
    And,
    /// `==`
    Equal,
    /// `!=`
    NotEqual,
    /// `<`
    Less,
    /// `<=`
    LessEqual,
    /// `>`
    Greater,
    /// `>=`
    GreaterEqual,
    /// `<<`
    ShiftLeft,
    /// `>>`
    ShiftRight,
    /// `+`
    Add,
    /// `-` between operands
    Sub,
    /// `*`
    Mul,
    /// `/`
    Div,
    /// `%`
    Rem,
    /// `!`
    Not,
    /// `-` before an operand
    Negate,
}
