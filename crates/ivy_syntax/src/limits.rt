//! The counted limits of a text, found from its tokens alone. The nesting of expressions is no part of it.

ghost use Rattle.std.specs.Prelude.{◌≡◌, ◌++◌, [], ◌∷◌, ◌&&◌, nat_le, map, reverse, Some, None, IfOk, OnOk};
ghost use Rattle.ivy_syntax.specs.Limits as spec;
ghost use Rattle.ivy_syntax.specs.Counting as counting;

use crate::lexeme::{Keyword, Kind, Lexeme, Symbol};
use std::alloc::Global;
use wire::NoMemory;

/// What has been counted before a token.
#[derive(Drop)]
pub(crate) struct Counts {
    pub contracts: u64,
    pub clauses: u64,
    pub statements: u64,
    /// The requirements whose asset has begun.
    pub assets: u64,
    pub operators: u64,
    pub params: u64,
    /// The keyword that began the section.
    pub section: Option<Kind>,
    /// The last keyword but `of`.
    pub part: Option<Kind>,
    /// The token right before.
    pub before: Option<Kind>,
    /// The commas of each open bracket, the innermost last.
    pub brackets: Vec<u64>,
}

fn is_contract(kind: Kind) -> bool
    ensures { result ≡ spec.is_contract kind }
{
    matches!(kind, Kind::Word(Keyword::Contract))
}

fn is_clause(kind: Kind) -> bool
    ensures { result ≡ spec.is_clause kind }
{
    matches!(kind, Kind::Word(Keyword::Clause))
}

fn is_requires(kind: Kind) -> bool
    ensures { result ≡ spec.is_requires kind }
{
    matches!(kind, Kind::Word(Keyword::Requires))
}

fn is_of(kind: Kind) -> bool
    ensures { result ≡ spec.is_of kind }
{
    matches!(kind, Kind::Word(Keyword::Of))
}

fn is_statement(kind: Kind) -> bool
    ensures { result ≡ spec.is_statement kind }
{
    matches!(
        kind,
        Kind::Word(Keyword::Verify | Keyword::Lock | Keyword::Unlock)
    )
}

fn is_name(kind: Kind) -> bool
    ensures { result ≡ spec.is_name kind }
{
    matches!(kind, Kind::Name)
}

fn is_operator(kind: Kind) -> bool
    ensures { result ≡ spec.is_operator kind }
{
    matches!(kind, Kind::Operation(_))
}

fn is_comma(kind: Kind) -> bool
    ensures { result ≡ spec.is_comma kind }
{
    matches!(kind, Kind::Sign(Symbol::Comma))
}

fn opens(kind: Kind) -> bool
    ensures { result ≡ spec.opens kind }
{
    matches!(kind, Kind::Sign(Symbol::OpenParen | Symbol::OpenBracket))
}

fn closes(kind: Kind) -> bool
    ensures { result ≡ spec.closes kind }
{
    matches!(kind, Kind::Sign(Symbol::CloseParen | Symbol::CloseBracket))
}

fn leads_param(kind: Kind) -> bool
    ensures { result ≡ spec.leads_param kind }
{
    matches!(kind, Kind::Sign(Symbol::OpenParen | Symbol::Comma))
}

fn leads_expression(kind: Kind) -> bool
    ensures { result ≡ spec.leads_expression kind }
{
    matches!(
        kind,
        Kind::Word(Keyword::Verify | Keyword::With | Keyword::Of) | Kind::Sign(Symbol::Colon)
    )
}

fn takes_expressions(kind: Kind) -> bool
    ensures { result ≡ spec.takes_expressions kind }
{
    matches!(
        kind,
        Kind::Word(Keyword::Verify | Keyword::With | Keyword::Of | Keyword::Requires)
    )
}

fn begins_section(kind: Kind) -> bool
    ensures { result ≡ spec.begins_section kind }
{
    match kind {
        Kind::Word(Keyword::True | Keyword::False) => false,
        Kind::Word(_) => true,
        _ => false,
    }
}

fn begins_part(kind: Kind) -> bool
    ensures { result ≡ spec.begins_part kind }
{
    begins_section(kind) && !is_of(kind)
}

fn next_count(count: u64, clears: bool, counts: bool) -> u64
    ensures { result ≡ counting.next_count count clears counts }
{
    if clears {
        0
    } else if counts && count < u64::MAX {
        count + 1
    } else {
        count
    }
}

fn next_last(last: Option<Kind>, wanted: bool, kind: Kind) -> Option<Kind>
    ensures { result ≡ counting.next_last last wanted kind }
{
    if wanted { Some(kind) } else { last }
}

fn count_comma(brackets: &mut Vec<u64>) -> Result<(), NoMemory>
    ensures { OnOk result (reverse brackets.new.items ≡ counting.first_more (reverse brackets.old.items)) }
{
    if let Some(commas) = brackets.pop() {
        brackets.push(next_count(commas, false, true))?;
    }
    Ok(())
}

fn nest(brackets: &mut Vec<u64>, kind: Kind) -> Result<(), NoMemory>
    ensures { OnOk result (reverse brackets.new.items ≡ counting.nested (reverse brackets.old.items) kind) }
{
    if begins_section(kind) {
        brackets.clear();
    } else if closes(kind) {
        let _ = brackets.pop();
    } else if opens(kind) {
        brackets.push(0)?;
    } else if is_comma(kind) {
        count_comma(brackets)?;
    }
    Ok(())
}

// The commas of the innermost open bracket.
fn innermost(brackets: &[u64]) -> Option<u64>
    ensures { result ≡ counting.first_of (reverse brackets.now) }
{
    match brackets.last() {
        Some(commas) => Some(*commas),
        None => None,
    }
}

impl Counts {
    fn new(alloc: Global) -> Counts
        ensures { counting.Counted result [] }
    {
        Counts {
            contracts: 0,
            clauses: 0,
            statements: 0,
            assets: 0,
            operators: 0,
            params: 0,
            section: None,
            part: None,
            before: None,
            brackets: Vec::new(alloc),
        }
    }

    // Counts a token.
    fn note(&mut self, kind: Kind) -> Result<(), NoMemory>
        ensures { OnOk result (counting.Noted self.old self.new kind) }
    {
        nest(&mut self.brackets, kind)?;
        let is_param = is_name(kind) && self.before.is_some_and(leads_param);
        self.contracts = next_count(self.contracts, false, is_contract(kind));
        self.clauses = next_count(self.clauses, is_contract(kind), is_clause(kind));
        self.statements = next_count(self.statements, is_clause(kind), is_statement(kind));
        self.assets = next_count(self.assets, is_requires(kind), is_of(kind));
        self.operators = next_count(self.operators, leads_expression(kind), is_operator(kind));
        self.params = next_count(self.params, begins_section(kind), is_param);
        self.section = next_last(self.section, begins_section(kind), kind);
        self.part = next_last(self.part, begins_part(kind), kind);
        self.before = Some(kind);
        Ok(())
    }

    fn param_passed(&self, owner: bool, kind: Kind) -> bool
        ensures { result ≡ (spec.is_name kind && spec.holds spec.leads_param self.now.before && owner
            && nat_le 32 self.now.params) }
    {
        is_name(kind) && self.before.is_some_and(leads_param) && owner && 32 <= self.params
    }

    fn requirement_passed(&self, kind: Kind) -> bool
        ensures { result ≡ counting.requirement_passed self.now kind }
    {
        is_name(kind)
            && self.before.is_some_and(is_comma)
            && self.part.is_some_and(is_requires)
            && innermost(&self.brackets).is_none()
            && 8 <= self.assets
    }

    fn member_passed(&self) -> bool
        ensures { result ≡ counting.member_passed self.now }
    {
        self.before.is_some_and(is_comma)
            && self.section.is_some_and(takes_expressions)
            && at_least_16(innermost(&self.brackets))
    }

    // The smallest number of a limit that the token passes.
    fn passed(&self, kind: Kind) -> Option<u8>
        ensures { result ≡ counting.counts_passed self.now kind }
    {
        if is_contract(kind) && 16 <= self.contracts {
            Some(1)
        } else if self.param_passed(self.section.is_some_and(is_contract), kind) {
            Some(2)
        } else if is_clause(kind) && 16 <= self.clauses {
            Some(3)
        } else if self.param_passed(self.section.is_some_and(is_clause), kind) {
            Some(4)
        } else if self.requirement_passed(kind) {
            Some(5)
        } else if is_statement(kind) && 64 <= self.statements {
            Some(6)
        } else if self.member_passed() {
            Some(8)
        } else if is_operator(kind) && 256 <= self.operators {
            Some(9)
        } else {
            None
        }
    }
}

fn at_least_16(count: Option<u64>) -> bool
    ensures { result ≡ spec.at_least 16 count }
{
    match count {
        Some(count) => 16 <= count,
        None => false,
    }
}

/// The first token that passes a limit, by its place among the tokens, and the number of the limit: 1 contracts of a
/// text, 2 parameters of a contract, 3 clauses of a contract, 4 parameters of a clause, 5 requirements of a clause, 6
/// statements of a clause, 8 members of a list or call, 9 operators of an expression.
pub(crate) fn first_passed(
    alloc: Global,
    lexemes: &[Lexeme<'_>],
) -> Result<Option<(usize, u8)>, NoMemory>
    ensures { IfOk result (λ found. spec.FirstPassed (map (λ l. l.kind) lexemes.now) found) }
{
    let mut counts = Counts::new(alloc);
    for (at, lexeme) in lexemes.iter().enumerate() {
        if let Some(number) = counts.passed(lexeme.kind) {
            return Ok(Some((at, number)));
        }
        counts.note(lexeme.kind)?;
    }
    Ok(None)
}
