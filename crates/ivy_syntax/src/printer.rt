//! Sources as texts.

ghost use Rattle.std.specs.Prelude.{◌≡◌, ◌<◌, [], ◌∷◌, ◌++◌, List, map, string_bytes, true, false, IfOk, OnOk};
ghost use Rattle.std.specs.List.{flat_map};
ghost use Rattle.std.specs.Fmt.{digit_glyph};
ghost use Rattle.std.specs.Str.Lossy.{utf8_lossy};
ghost use Rattle.ivy_syntax.specs.declared.lexeme.Keyword.TheVariants as keyword;
ghost use Rattle.ivy_syntax.specs.declared.lexeme.Symbol.TheVariants as symbol;
ghost use Rattle.ivy_syntax.specs.Token.{Token, sign, mark};
ghost use Rattle.ivy_syntax.specs.Token as token;
ghost use Rattle.ivy_syntax.specs.Tokens.{CanBeWritten, digits_of, written};
ghost use Rattle.ivy_syntax.specs.declared.level.Level.TheVariants as levels;
ghost use Rattle.ivy_syntax.specs.Shown as shown;
ghost use Rattle.ivy_syntax.specs.Spaced.{spaced, sign_if, truth_word};

use crate::level::Level;
use crate::lexeme::{Keyword, Operator, Symbol};
use crate::{ClauseTree, Contract, Expr, Form, Group, Op, Req, Source, Stmt, Text, Word};
use std::alloc::Global;
use wire::{Bytes, NoMemory};

/// The text of a source: its tokens with one space between two and a newline at the end, hex digits in lower case. Of a
/// source that was read, it is in ASCII, and parentheses stand round an operand exactly where the text without them
/// does not read as the same tree, apart from the places. In a tree made by hand, bytes that are no UTF-8 are printed
/// as U+FFFD.
#[tactic(auto, using(crate::proofs::Spaces::written_text))]
pub fn print(alloc: Global, source: &Source) -> Result<String, NoMemory>
    // The text of a source whose tokens can be written.
    ensures written { IfOk result (λ text. CanBeWritten (shown.shown source.now)
        → string_bytes text ≡ written (shown.shown source.now)) }

    // And of any source.
    ensures lossy { IfOk result (λ text. string_bytes text ≡ utf8_lossy (written (shown.shown source.now))) }
{
    let mut text = Bytes::new(alloc);
    put_contracts(alloc, &mut text, source.contracts.as_slice())?;
    text.push(b'\n')?;
    Ok(String::from_utf8_lossy(alloc, behind_space(text.as_slice()))?)
}

// All bytes but the space before the first token.
#[tactic(auto, using(crate::proofs::Spaces::behind_first, crate::proofs::Spaces::none_before))]
fn behind_space(text: &[u8]) -> &[u8]
    ensures { (tokens : List Token) → text.now ≡ spaced tokens ++ (10 ∷ []) → result.now ≡ written tokens }
{
    match text {
        [first, behind @ ..] if *first == b' ' => behind,
        _ => text,
    }
}

// ---- contracts

// Adds contracts.
fn put_contracts(alloc: Global, text: &mut Bytes, contracts: &[Contract]) -> Result<(), NoMemory>
    ensures { OnOk result (text.new ≡ text.old ++ spaced (flat_map shown.contract_tokens contracts.now)) }
{
    for contract in contracts {
        put_contract(alloc, text, contract)?;
    }
    Ok(())
}

// Adds a contract.
fn put_contract(alloc: Global, text: &mut Bytes, contract: &Contract) -> Result<(), NoMemory>
    ensures { OnOk result (text.new ≡ text.old ++ spaced (shown.contract_tokens contract.now)) }
{
    put_keyword(text, Keyword::Contract)?;
    put_word(text, &contract.name)?;
    put_params(text, contract.params.as_slice())?;
    put_locks(text, &contract.value)?;
    put_sign(text, Symbol::OpenBrace)?;
    put_clauses(alloc, text, contract.clauses.as_slice())?;
    put_sign(text, Symbol::CloseBrace)
}

// Adds what a contract locks.
fn put_locks(text: &mut Bytes, value: &Word) -> Result<(), NoMemory>
    ensures { OnOk result (text.new ≡ text.old ++ spaced (token.Word keyword.Locks ∷ token.Name value.now.name ∷ [])) }
{
    put_keyword(text, Keyword::Locks)?;
    put_word(text, value)
}

// ---- clauses

// Adds clauses.
fn put_clauses(alloc: Global, text: &mut Bytes, clauses: &[ClauseTree]) -> Result<(), NoMemory>
    ensures { OnOk result (text.new ≡ text.old ++ spaced (flat_map shown.clause_tokens clauses.now)) }
{
    for clause in clauses {
        put_clause(alloc, text, clause)?;
    }
    Ok(())
}

// Adds a clause.
fn put_clause(alloc: Global, text: &mut Bytes, clause: &ClauseTree) -> Result<(), NoMemory>
    ensures { OnOk result (text.new ≡ text.old ++ spaced (shown.clause_tokens clause.now)) }
{
    put_keyword(text, Keyword::Clause)?;
    put_word(text, &clause.name)?;
    put_params(text, clause.params.as_slice())?;
    put_requires(alloc, text, clause.reqs.as_slice())?;
    put_sign(text, Symbol::OpenBrace)?;
    put_stmts(alloc, text, clause.stmts.as_slice())?;
    put_sign(text, Symbol::CloseBrace)
}

// Adds the requirements of a clause.
fn put_requires(alloc: Global, text: &mut Bytes, reqs: &[Req]) -> Result<(), NoMemory>
    ensures { OnOk result (text.new ≡ text.old ++ spaced (shown.requires_tokens reqs.now)) }
{
    if reqs.is_empty() {
        return Ok(());
    }
    put_keyword(text, Keyword::Requires)?;
    put_reqs(alloc, text, reqs)
}

// Adds requirements with commas between them.
fn put_reqs(alloc: Global, text: &mut Bytes, reqs: &[Req]) -> Result<(), NoMemory>
    ensures { OnOk result (text.new ≡ text.old ++ spaced (shown.separated (map shown.req_tokens reqs.now))) }
{
    for (at, req) in reqs.iter().enumerate() {
        put_sign_if(text, at > 0, Symbol::Comma)?;
        put_req(alloc, text, req)?;
    }
    Ok(())
}

// Adds a requirement.
fn put_req(alloc: Global, text: &mut Bytes, req: &Req) -> Result<(), NoMemory>
    ensures { OnOk result (text.new ≡ text.old ++ spaced (shown.req_tokens req.now)) }
{
    put_word(text, &req.name)?;
    put_sign(text, Symbol::Colon)?;
    put_expr(alloc, text, &req.amount, Level::Or)?;
    put_keyword(text, Keyword::Of)?;
    put_expr(alloc, text, &req.asset, Level::Or)
}

// Adds statements.
fn put_stmts(alloc: Global, text: &mut Bytes, stmts: &[Stmt]) -> Result<(), NoMemory>
    ensures { OnOk result (text.new ≡ text.old ++ spaced (flat_map shown.stmt_tokens stmts.now)) }
{
    for stmt in stmts {
        put_stmt(alloc, text, stmt)?;
    }
    Ok(())
}

// Adds a statement.
fn put_stmt(alloc: Global, text: &mut Bytes, stmt: &Stmt) -> Result<(), NoMemory>
    ensures { OnOk result (text.new ≡ text.old ++ spaced (shown.stmt_tokens stmt.now)) }
{
    match stmt {
        Stmt::Verify { expr, .. } => {
            put_keyword(text, Keyword::Verify)?;
            put_expr(alloc, text, expr, Level::Or)
        }
        Stmt::Lock { value, program, .. } => {
            put_keyword(text, Keyword::Lock)?;
            put_word(text, value)?;
            put_keyword(text, Keyword::With)?;
            put_expr(alloc, text, program, Level::Or)
        }
        Stmt::Unlock { value, .. } => {
            put_keyword(text, Keyword::Unlock)?;
            put_word(text, value)
        }
    }
}

// ---- parameters

// Adds parameters in their parentheses.
fn put_params(text: &mut Bytes, groups: &[Group]) -> Result<(), NoMemory>
    ensures { OnOk result (text.new ≡ text.old ++ spaced (shown.enclosed_if true (shown.params_tokens groups.now))) }
{
    put_sign(text, Symbol::OpenParen)?;
    put_groups(text, groups)?;
    put_sign(text, Symbol::CloseParen)
}

// Adds groups of parameters with commas between them.
fn put_groups(text: &mut Bytes, groups: &[Group]) -> Result<(), NoMemory>
    ensures { OnOk result (text.new ≡ text.old ++ spaced (shown.params_tokens groups.now)) }
{
    for (at, group) in groups.iter().enumerate() {
        put_sign_if(text, at > 0, Symbol::Comma)?;
        put_group(text, group)?;
    }
    Ok(())
}

// Adds a group of parameters.
fn put_group(text: &mut Bytes, group: &Group) -> Result<(), NoMemory>
    ensures { OnOk result (text.new ≡ text.old ++ spaced (shown.group_tokens group.now)) }
{
    put_words(text, group.names.as_slice())?;
    put_sign(text, Symbol::Colon)?;
    put_word(text, &group.kind)
}

// Adds names with commas between them.
fn put_words(text: &mut Bytes, words: &[Word]) -> Result<(), NoMemory>
    ensures { OnOk result (text.new ≡ text.old ++ spaced (shown.separated (map shown.word_tokens words.now))) }
{
    for (at, word) in words.iter().enumerate() {
        put_sign_if(text, at > 0, Symbol::Comma)?;
        put_word(text, word)?;
    }
    Ok(())
}

// ---- expressions

// Adds an expression, where this level reads it.
#[cycle(expressions)]
#[tactic(auto, using(crate::proofs::PrintedParts::expressions))]
fn put_expr(alloc: Global, text: &mut Bytes, expr: &Expr, place: Level) -> Result<(), NoMemory>
    ensures { OnOk result (text.new ≡ text.old ++ spaced (shown.tokens_at place expr.now)) }
{
    match &expr.form {
        Form::Number(n) => put_number(alloc, text, *n),
        Form::Truth(truth) => put_truth(text, *truth),
        Form::Hex(bytes) => put_hex(text, bytes),
        Form::Quoted(bytes) => put_quoted(text, bytes),
        Form::Name(name) => put_name(text, name),
        Form::Call { name, args } => put_call(alloc, text, name, args.as_slice()),
        Form::Members(items) => put_members(alloc, text, items.as_slice()),
        Form::Unary { op, arg } => {
            put_operator(text, *op)?;
            put_expr(alloc, text, arg.get(), Level::Unary)
        }
        Form::Binary { op, left, right } => {
            let level = level_of(*op);
            let enclosed = is_enclosed(level, place);
            put_sign_if(text, enclosed, Symbol::OpenParen)?;
            put_expr(alloc, text, left.get(), left_level(level))?;
            put_operator(text, *op)?;
            put_expr(alloc, text, right.get(), level.below())?;
            put_sign_if(text, enclosed, Symbol::CloseParen)
        }
    }
}

// Adds a call.
#[cycle(expressions)]
fn put_call(alloc: Global, text: &mut Bytes, name: &Text, args: &[Expr]) -> Result<(), NoMemory>
    ensures { OnOk result (text.new ≡ text.old
        ++ spaced (token.Name name.now ∷ shown.enclosed_if true (shown.separated
        (map (shown.tokens_at levels.Or) args.now)))) }
{
    put_name(text, name)?;
    put_sign(text, Symbol::OpenParen)?;
    put_exprs(alloc, text, args)?;
    put_sign(text, Symbol::CloseParen)
}

// Adds a list.
#[cycle(expressions)]
fn put_members(alloc: Global, text: &mut Bytes, items: &[Expr]) -> Result<(), NoMemory>
    ensures { OnOk result (text.new ≡ text.old
        ++ spaced (token.Sign symbol.OpenBracket ∷ (shown.separated (map (shown.tokens_at levels.Or) items.now)
        ++ (token.Sign symbol.CloseBracket ∷ [])))) }
{
    put_sign(text, Symbol::OpenBracket)?;
    put_exprs(alloc, text, items)?;
    put_sign(text, Symbol::CloseBracket)
}

// Adds expressions with commas between them.
#[cycle(expressions)]
fn put_exprs(alloc: Global, text: &mut Bytes, exprs: &[Expr]) -> Result<(), NoMemory>
    ensures { OnOk result (text.new ≡ text.old
        ++ spaced (shown.separated (map (shown.tokens_at levels.Or) exprs.now))) }
{
    for (at, expr) in exprs.iter().enumerate() {
        put_sign_if(text, at > 0, Symbol::Comma)?;
        put_expr(alloc, text, expr, Level::Or)?;
    }
    Ok(())
}

// ---- levels

// The level of an operator.
fn level_of(op: Op) -> Level
    ensures { result ≡ shown.level_of op }
{
    match op {
        Op::Or => Level::Or,
        Op::And => Level::And,
        Op::Equal | Op::NotEqual | Op::Less | Op::LessEqual | Op::Greater | Op::GreaterEqual =>
            Level::Comparison,
        Op::ShiftLeft | Op::ShiftRight => Level::Shift,
        Op::Add | Op::Sub => Level::Sum,
        Op::Mul | Op::Div | Op::Rem => Level::Term,
        Op::Not | Op::Negate => Level::Unary,
    }
}

// The level that reads the left operand of an operator of this level.
fn left_level(level: Level) -> Level
    ensures { result ≡ shown.left_level level }
{
    match level {
        Level::Comparison => Level::Shift,
        _ => level,
    }
}

// What has an operator of the one level stands in parentheses where the other reads it.
fn is_enclosed(own: Level, place: Level) -> bool
    ensures { result ≡ shown.is_enclosed own place }
{
    own.rank() < place.rank()
}

// ---- tokens

// Adds a name that has a place.
fn put_word(text: &mut Bytes, word: &Word) -> Result<(), NoMemory>
    ensures { OnOk result (text.new ≡ text.old ++ spaced (shown.word_tokens word.now)) }
{
    put_name(text, &word.name)
}

// Adds a name.
fn put_name(text: &mut Bytes, name: &Text) -> Result<(), NoMemory>
    ensures { OnOk result (text.new ≡ text.old ++ spaced (token.Name name.now ∷ [])) }
{
    put(text, name.as_slice())
}

// Adds a keyword.
fn put_keyword(text: &mut Bytes, keyword: Keyword) -> Result<(), NoMemory>
    ensures { OnOk result (text.new ≡ text.old ++ spaced (token.Word keyword ∷ [])) }
{
    put(text, keyword.letters())
}

// Adds a truth value.
fn put_truth(text: &mut Bytes, truth: bool) -> Result<(), NoMemory>
    ensures { OnOk result (text.new ≡ text.old ++ spaced (token.Word (truth_word truth) ∷ [])) }
{
    put_keyword(text, if truth { Keyword::True } else { Keyword::False })
}

// Adds a bracket, a comma or a colon.
fn put_sign(text: &mut Bytes, symbol: Symbol) -> Result<(), NoMemory>
    ensures { OnOk result (text.new ≡ text.old ++ spaced (token.Sign symbol ∷ [])) }
{
    put(text, sign(symbol))
}

// Adds the same, where it is wanted.
fn put_sign_if(text: &mut Bytes, wanted: bool, symbol: Symbol) -> Result<(), NoMemory>
    ensures { OnOk result (text.new ≡ text.old ++ spaced (sign_if wanted symbol)) }
{
    if !wanted {
        return Ok(());
    }
    put_sign(text, symbol)
}

// Adds an operator of the tree.
fn put_operator(text: &mut Bytes, op: Op) -> Result<(), NoMemory>
    ensures { OnOk result (text.new ≡ text.old ++ spaced (token.Operation (shown.operator_of op) ∷ [])) }
{
    put(text, mark(operator_of(op)))
}

// Adds a number.
fn put_number(alloc: Global, text: &mut Bytes, n: u64) -> Result<(), NoMemory>
    ensures { OnOk result (text.new ≡ text.old ++ spaced (token.Number n ∷ [])) }
{
    put(text, n.to_string(alloc)?.as_bytes())
}

// Adds bytes as hex digits.
fn put_hex(text: &mut Bytes, bytes: &Text) -> Result<(), NoMemory>
    ensures { OnOk result (text.new ≡ text.old ++ spaced (token.Hex bytes.now ∷ [])) }
{
    put(text, b"0x")?;
    put_digits(text, bytes.as_slice())
}

// Adds bytes in quotes.
fn put_quoted(text: &mut Bytes, bytes: &Text) -> Result<(), NoMemory>
    ensures { OnOk result (text.new ≡ text.old ++ spaced (token.Quoted bytes.now ∷ [])) }
{
    put(text, b"'")?;
    text.extend_from_slice(bytes.as_slice())?;
    text.push(b'\'')
}

// Adds two digits for each byte.
fn put_digits(text: &mut Bytes, bytes: &[u8]) -> Result<(), NoMemory>
    ensures { OnOk result (text.new ≡ text.old ++ digits_of bytes.now) }
{
    for b in bytes {
        text.push(digit(*b / 16))?;
        text.push(digit(*b % 16))?;
    }
    Ok(())
}

// A hex digit, a letter in lower case.
fn digit(d: u8) -> u8
    requires { d < 16 }
    ensures { result ≡ digit_glyph false d }
{
    if d < 10 { b'0' + d } else { b'a' + (d - 10) }
}

// Adds a space and a word.
fn put(text: &mut Bytes, word: &[u8]) -> Result<(), NoMemory>
    ensures { OnOk result (text.new ≡ text.old ++ (32 ∷ word.now)) }
{
    text.push(b' ')?;
    text.extend_from_slice(word)
}

// A bracket, a comma or a colon, as it is written.
fn sign(symbol: Symbol) -> &'static [u8]
    ensures { result.now ≡ sign symbol }
{
    match symbol {
        Symbol::OpenParen => b"(",
        Symbol::CloseParen => b")",
        Symbol::OpenBrace => b"{",
        Symbol::CloseBrace => b"}",
        Symbol::OpenBracket => b"[",
        Symbol::CloseBracket => b"]",
        Symbol::Comma => b",",
        Symbol::Colon => b":",
    }
}

// An operator, as it is written.
fn mark(operator: Operator) -> &'static [u8]
    ensures { result.now ≡ mark operator }
{
    match operator {
        Operator::Or => b"||",
        Operator::And => b"&&",
        Operator::Equal => b"==",
        Operator::NotEqual => b"!=",
        Operator::Less => b"<",
        Operator::LessEqual => b"<=",
        Operator::Greater => b">",
        Operator::GreaterEqual => b">=",
        Operator::ShiftLeft => b"<<",
        Operator::ShiftRight => b">>",
        Operator::Plus => b"+",
        Operator::Minus => b"-",
        Operator::Star => b"*",
        Operator::Slash => b"/",
        Operator::Percent => b"%",
        Operator::Not => b"!",
    }
}

// The operator of a text that writes this one.
fn operator_of(op: Op) -> Operator
    ensures { result ≡ shown.operator_of op }
{
    match op {
        Op::Or => Operator::Or,
        Op::And => Operator::And,
        Op::Equal => Operator::Equal,
        Op::NotEqual => Operator::NotEqual,
        Op::Less => Operator::Less,
        Op::LessEqual => Operator::LessEqual,
        Op::Greater => Operator::Greater,
        Op::GreaterEqual => Operator::GreaterEqual,
        Op::ShiftLeft => Operator::ShiftLeft,
        Op::ShiftRight => Operator::ShiftRight,
        Op::Add => Operator::Plus,
        Op::Sub | Op::Negate => Operator::Minus,
        Op::Mul => Operator::Star,
        Op::Div => Operator::Slash,
        Op::Rem => Operator::Percent,
        Op::Not => Operator::Not,
    }
}
