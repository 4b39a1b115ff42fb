//! The walk from a contract's tree to core.
ghost use Rattle.std.specs.Prelude.{◌≡◌, List, map, Option, Some, None, IfOk, option_map};
ghost use Rattle.ivy_check.specs.Functions.{function_named};
ghost use Rattle.ivy_value.specs.Term.{term_of};
ghost use Rattle.ivy_value.specs.Seen.{names_of, seen};
ghost use Rattle.ivy_value.specs.Lowered.{named, unary, binary, of_two, before_operand, is_same, is_other};
ghost use Rattle.ivy_value.specs.Lowered.{between_operands, kind_in, between, as_bytes, signed_by, multi_signed};
ghost use Rattle.ivy_value.specs.Lowered.{function_of_one, function_of_two, called_on_one, called_on_two, called};
ghost use Rattle.ivy_value.specs.Lowered.{Places, gathered, place_in, lowered, lowered_term};

use crate::NoMemory;
use crate::kind::Kind;
use crate::naming::param_named;
use crate::tree::{BinaryOp, Core, Place, Places, UnaryOp};
use ivy_check::{Function, Param};
use ivy_syntax::{Expr, Form, Op};
use std::alloc::Global;
use std::boxed::Box;
use wire::Listed;

/// The parameters of a contract and of one of its clauses.
#[derive(Clone, Copy)]
pub(crate) struct Names<'a> {
    pub(crate) held: &'a [Param],
    pub(crate) given: &'a [Param],
}

/// What becomes of an expression.
#[derive(Drop)]
pub(crate) enum Walked {
    /// A value, and how it is compared.
    Single(Kind, Core),
    /// Of a list the places of its members.
    Places(Places),
}

// The parameter of a name: the clause's, or else the contract's.
fn named(names: Names, name: &[u8]) -> Option<Walked>
    ensures { seen result ≡ named (names_of names.entry) name.now }
{
    if let Some(found) = param_named(name, names.given) {
        return Some(Walked::Single(Kind::of(found.kind), Core::Param(Place::Given(found.place))));
    }
    let found = param_named(name, names.held)?;
    Some(Walked::Single(Kind::of(found.kind), Core::Param(Place::Held(found.place))))
}

// ---- operations

// An operation on a value.
fn unary(
    alloc: Global,
    operation: Option<(Kind, UnaryOp)>,
    arg: Option<Walked>,
) -> Result<Option<Walked>, NoMemory>
    ensures { IfOk result (λ made. seen made ≡ unary operation (seen arg)) }
{
    let Some(Walked::Single(_, arg)) = arg else {
        return Ok(None);
    };
    let Some((kind, op)) = operation else {
        return Ok(None);
    };
    let arg = Box::new(alloc, arg)?;
    Ok(Some(Walked::Single(kind, Core::Unary { op, arg })))
}

// An operation on two values.
fn binary(
    alloc: Global,
    operation: Option<(Kind, BinaryOp)>,
    left: Option<Walked>,
    right: Option<Walked>,
) -> Result<Option<Walked>, NoMemory>
    ensures { IfOk result (λ made. seen made ≡ binary operation (seen left) (seen right)) }
{
    let Some(Walked::Single(_, left)) = left else {
        return Ok(None);
    };
    let Some(Walked::Single(_, right)) = right else {
        return Ok(None);
    };
    let Some((kind, op)) = operation else {
        return Ok(None);
    };
    let left = Box::new(alloc, left)?;
    let right = Box::new(alloc, right)?;
    Ok(Some(Walked::Single(kind, Core::Binary { op, left, right })))
}

fn before_operand(op: Op) -> Option<(Kind, UnaryOp)>
    ensures { result ≡ before_operand op }
{
    match op {
        Op::Not => Some((Kind::Truth, UnaryOp::Not)),
        Op::Negate => Some((Kind::Number, UnaryOp::Negate)),
        _ => None,
    }
}

fn is_same(kind: Kind) -> BinaryOp
    ensures { result ≡ is_same kind }
{
    match kind {
        Kind::Number => BinaryOp::SameNumber,
        Kind::Truth => BinaryOp::SameTruth,
        Kind::Bytes => BinaryOp::SameBytes,
    }
}

fn is_other(kind: Kind) -> BinaryOp
    ensures { result ≡ is_other kind }
{
    match kind {
        Kind::Number => BinaryOp::OtherNumber,
        Kind::Truth => BinaryOp::OtherTruth,
        Kind::Bytes => BinaryOp::OtherBytes,
    }
}

// An operation between operands of which the first is compared so.
fn between_operands(op: Op, kind: Kind) -> Option<(Kind, BinaryOp)>
    ensures { result ≡ between_operands op kind }
{
    match op {
        Op::Add => Some((Kind::Number, BinaryOp::Add)),
        Op::Sub => Some((Kind::Number, BinaryOp::Sub)),
        Op::Mul => Some((Kind::Number, BinaryOp::Mul)),
        Op::Div => Some((Kind::Number, BinaryOp::Div)),
        Op::Rem => Some((Kind::Number, BinaryOp::Rem)),
        Op::ShiftLeft => Some((Kind::Number, BinaryOp::ShiftLeft)),
        Op::ShiftRight => Some((Kind::Number, BinaryOp::ShiftRight)),
        Op::Less => Some((Kind::Truth, BinaryOp::Less)),
        Op::LessEqual => Some((Kind::Truth, BinaryOp::LessEqual)),
        Op::Greater => Some((Kind::Truth, BinaryOp::Greater)),
        Op::GreaterEqual => Some((Kind::Truth, BinaryOp::GreaterEqual)),
        Op::Equal => Some((Kind::Truth, is_same(kind))),
        Op::NotEqual => Some((Kind::Truth, is_other(kind))),
        Op::And => Some((Kind::Truth, BinaryOp::And)),
        Op::Or => Some((Kind::Truth, BinaryOp::Or)),
        Op::Not | Op::Negate => None,
    }
}

fn kind_in(walked: &Option<Walked>) -> Kind
    ensures { result ≡ kind_in (seen walked.now) }
{
    match walked {
        Some(Walked::Single(kind, _)) => *kind,
        _ => Kind::Bytes,
    }
}

// ---- functions

fn function_of_one(function: Function) -> Option<(Kind, UnaryOp)>
    ensures { result ≡ function_of_one function }
{
    match function {
        Function::Abs => Some((Kind::Number, UnaryOp::Abs)),
        Function::Size => Some((Kind::Number, UnaryOp::Size)),
        Function::Sha256 => Some((Kind::Bytes, UnaryOp::Sha256)),
        Function::Before => Some((Kind::Truth, UnaryOp::Before)),
        Function::After => Some((Kind::Truth, UnaryOp::After)),
        _ => None,
    }
}

fn function_of_two(function: Function) -> Option<(Kind, BinaryOp)>
    ensures { result ≡ function_of_two function }
{
    match function {
        Function::Min => Some((Kind::Number, BinaryOp::Min)),
        Function::Max => Some((Kind::Number, BinaryOp::Max)),
        Function::Concat => Some((Kind::Bytes, BinaryOp::Concat)),
        Function::ConcatPush => Some((Kind::Bytes, BinaryOp::ConcatPush)),
        _ => None,
    }
}

// Its bytes as they are.
fn as_bytes(walked: Option<Walked>) -> Option<Walked>
    ensures { seen result ≡ as_bytes (seen walked) }
{
    let Some(Walked::Single(_, core)) = walked else {
        return None;
    };
    Some(Walked::Single(Kind::Bytes, core))
}

// A signature for a key.
fn signed(key: Option<Walked>, sig: Option<Walked>) -> Option<Walked>
    ensures { seen result ≡ of_two signed_by (seen key) (seen sig) }
{
    let Some(Walked::Single(_, Core::Param(key))) = key else {
        return None;
    };
    let Some(Walked::Single(_, Core::Param(sig))) = sig else {
        return None;
    };
    Some(Walked::Single(Kind::Truth, Core::Signed { key, sig }))
}

// Signatures for keys.
fn multi_signed(keys: Option<Walked>, sigs: Option<Walked>) -> Option<Walked>
    ensures { seen result ≡ multi_signed (seen keys) (seen sigs) }
{
    let Some(Walked::Places(keys)) = keys else {
        return None;
    };
    let Some(Walked::Places(sigs)) = sigs else {
        return None;
    };
    Some(Walked::Single(Kind::Truth, Core::MultiSigned { keys, sigs }))
}

fn called_on_one(
    alloc: Global,
    function: Function,
    arg: Option<Walked>,
) -> Result<Option<Walked>, NoMemory>
    ensures { IfOk result (λ made. seen made ≡ called_on_one function (seen arg)) }
{
    match function {
        Function::BytesOf => Ok(as_bytes(arg)),
        _ => unary(alloc, function_of_one(function), arg),
    }
}

fn called_on_two(
    alloc: Global,
    function: Function,
    first: Option<Walked>,
    second: Option<Walked>,
) -> Result<Option<Walked>, NoMemory>
    ensures { IfOk result (λ made. seen made ≡ called_on_two function (seen first) (seen second)) }
{
    match function {
        Function::CheckTxSig => Ok(signed(first, second)),
        Function::CheckTxMultiSig => Ok(multi_signed(first, second)),
        _ => binary(alloc, function_of_two(function), first, second),
    }
}

// ---- expressions

/// The core of an expression.
#[cycle(walk)]
#[tactic(auto, using(crate::proofs::Walks::walking), unfolding(crate::specs::Lowered::lowered))]
pub(crate) fn lower(alloc: Global, names: Names, e: &Expr) -> Result<Option<Walked>, NoMemory>
    ensures { IfOk result (λ made. seen made ≡ lowered (names_of names.entry) e.now) }
{
    match &e.form {
        Form::Number(n) => Ok(Some(Walked::Single(Kind::Number, Core::Number(*n)))),
        Form::Truth(truth) => Ok(Some(Walked::Single(Kind::Truth, Core::Truth(*truth)))),
        Form::Hex(bytes) => {
            let bytes = bytes.copy(alloc)?;
            Ok(Some(Walked::Single(Kind::Bytes, Core::Bytes(bytes))))
        }
        Form::Quoted(bytes) => {
            let bytes = bytes.copy(alloc)?;
            Ok(Some(Walked::Single(Kind::Bytes, Core::Bytes(bytes))))
        }
        Form::Name(name) => Ok(named(names, name.as_slice())),
        Form::Call { name, args } => call(alloc, names, name.as_slice(), args.as_slice()),
        Form::Members(members) => list(alloc, names, members.as_slice()),
        Form::Unary { op, arg } => {
            let arg = lower(alloc, names, arg.get())?;
            unary(alloc, before_operand(*op), arg)
        }
        Form::Binary { op, left, right } => {
            let left = lower(alloc, names, left.get())?;
            let right = lower(alloc, names, right.get())?;
            let operation = between_operands(*op, kind_in(&left));
            binary(alloc, operation, left, right)
        }
    }
}

#[cycle(walk)]
#[tactic(auto, using(crate::proofs::Walks::walking))]
fn call(alloc: Global, names: Names, name: &[u8], args: &[Expr]) -> Result<Option<Walked>, NoMemory>
    ensures { IfOk result (λ made. seen made ≡ called (function_named name.now)
        (map (lowered (names_of names.entry)) args.now)) }
{
    let Some(function) = Function::named(name) else {
        return Ok(None);
    };
    if let [e] = args {
        let arg = lower(alloc, names, e)?;
        return called_on_one(alloc, function, arg);
    }
    if let [a, b] = args {
        let first = lower(alloc, names, a)?;
        let second = lower(alloc, names, b)?;
        return called_on_two(alloc, function, first, second);
    }
    Ok(None)
}

// The members of a list, which are parameters.
#[cycle(walk)]
#[tactic(auto, using(crate::proofs::Walks::walking))]
fn list(alloc: Global, names: Names, members: &[Expr]) -> Result<Option<Walked>, NoMemory>
    ensures { IfOk result (λ made. seen made ≡ option_map Places (gathered
        (map place_in (map (lowered (names_of names.entry)) members.now)))) }
{
    let mut places = Listed::new(alloc);
    for e in members {
        let Some(Walked::Single(_, Core::Param(place))) = lower(alloc, names, e)? else {
            return Ok(None);
        };
        places.push(place)?;
    }
    Ok(Some(Walked::Places(places)))
}

/// The core of an expression that is no list.
#[tactic(auto, using(crate::proofs::Walks::walking))]
pub(crate) fn lower_term(alloc: Global, names: Names, e: &Expr) -> Result<Option<Core>, NoMemory>
    ensures { IfOk result (λ made. option_map term_of made ≡ lowered_term (names_of names.entry) e.now) }
{
    match lower(alloc, names, e)? {
        Some(Walked::Single(_, core)) => Ok(Some(core)),
        _ => Ok(None),
    }
}
