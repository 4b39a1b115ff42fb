//! The values of expressions, worked out over core.
ghost use Rattle.std.specs.Prelude.{◌≡◌, Some, IfOk, pos, int_lt, length};
ghost use Rattle.std.specs.Option.{option_copied};
ghost use Rattle.vm_num.specs.Item.{num_bytes};
ghost use Rattle.vm_ops.specs.Signatures.{is_multi_good};
ghost use Rattle.ivy_check.specs.Scope.{Scope};
ghost use Rattle.ivy_value.specs.Items.{written, of_truth};
ghost use Rattle.ivy_value.specs.Value.{item_value};
ghost use Rattle.ivy_value.specs.Term.{term_of, argument_at, arguments_at, unary_item, binary_item, item_of};
ghost use Rattle.ivy_value.specs.Evaluated.{IsTypedIn, AreNamesOf, IsCoreOf, Stands, spent, spending_of, on_numbers};
ghost use Rattle.ivy_value.specs.Evaluated.{unserved};
ghost use Rattle.ivy_value.specs.Seen.{names_of};
ghost use Rattle.ivy_check.specs.Parameters.{parameters};
ghost use Rattle.keyed.specs.Functions.{Check};

use crate::NoMemory;
use crate::lower::{Names, lower_term};
use crate::tree::{BinaryOp, Core, Place, UnaryOp};
use ivy_check::{Checked, params};
use ivy_syntax::Expr;
use keyed::SigCheck;
use sha2::{Digest, Sha256};
use std::alloc::Global;
use vm_num::{add, div, mul, push_bytes, read_num, rem, shl, shr, sub, truth, write_num};
use vm_run::TxContext;
use wire::{Args, Bytes, Listed};

/// What a spending brings, but for the check of signatures.
#[derive(Clone, Copy)]
struct Spent<'a> {
    held: &'a [Bytes],
    given: &'a [Bytes],
    context: &'a TxContext,
}

// ---- items

fn of_number(alloc: Global, n: Option<i64>) -> Result<Option<Bytes>, NoMemory>
    ensures { IfOk result (λ made. made ≡ written n) }
{
    match n {
        Some(n) => Ok(Some(Bytes::from_slice(alloc, write_num(n).as_slice())?)),
        None => Ok(None),
    }
}

fn of_truth(alloc: Global, holds: bool) -> Result<Option<Bytes>, NoMemory>
    ensures { IfOk result (λ made. made ≡ of_truth holds) }
{
    let mut item = Bytes::new(alloc);
    if holds {
        item.push(1)?;
    }
    Ok(Some(item))
}

fn is_less(n: u64, t: i64) -> bool
    ensures { result ≡ int_lt (pos n) t }
{
    i128::from(n) < i128::from(t)
}

fn is_more(n: u64, t: i64) -> bool
    ensures { result ≡ int_lt t (pos n) }
{
    i128::from(t) < i128::from(n)
}

fn unary_item(
    alloc: Global,
    context: &TxContext,
    op: UnaryOp,
    a: &[u8],
) -> Result<Option<Bytes>, NoMemory>
    ensures { IfOk result (λ made. made ≡ unary_item context.now op a.now) }
{
    match op {
        UnaryOp::Not => of_truth(alloc, !truth(a)),
        UnaryOp::Size => of_number(alloc, Some(a.len() as i64)),
        UnaryOp::Sha256 => Ok(Some(Bytes::from_slice(alloc, &Sha256::digest(a))?)),
        UnaryOp::Negate => match read_num(a) {
            Some(x) => of_number(alloc, x.checked_neg()),
            None => Ok(None),
        },
        UnaryOp::Abs => match read_num(a) {
            Some(x) => of_number(alloc, x.checked_abs()),
            None => Ok(None),
        },
        UnaryOp::Before => match read_num(a) {
            Some(t) => of_truth(alloc, is_less(context.maxtime, t)),
            None => Ok(None),
        },
        UnaryOp::After => match read_num(a) {
            Some(t) => of_truth(alloc, is_more(context.mintime, t)),
            None => Ok(None),
        },
    }
}

// The operations that read both operands as numbers.
fn on_numbers(alloc: Global, op: BinaryOp, x: i64, y: i64) -> Result<Option<Bytes>, NoMemory>
    ensures { IfOk result (λ made. made ≡ on_numbers op x y) }
{
    match op {
        BinaryOp::Add => of_number(alloc, add(x, y)),
        BinaryOp::Sub => of_number(alloc, sub(x, y)),
        BinaryOp::Mul => of_number(alloc, mul(x, y)),
        BinaryOp::Div => of_number(alloc, div(x, y)),
        BinaryOp::Rem => of_number(alloc, rem(x, y)),
        BinaryOp::ShiftLeft => of_number(alloc, shl(x, y)),
        BinaryOp::ShiftRight => of_number(alloc, shr(x, y)),
        BinaryOp::Min => of_number(alloc, Some(x.min(y))),
        BinaryOp::Max => of_number(alloc, Some(x.max(y))),
        BinaryOp::Less => of_truth(alloc, x < y),
        BinaryOp::LessEqual => of_truth(alloc, x <= y),
        BinaryOp::Greater => of_truth(alloc, y < x),
        BinaryOp::GreaterEqual => of_truth(alloc, y <= x),
        BinaryOp::SameNumber => of_truth(alloc, x == y),
        BinaryOp::OtherNumber => of_truth(alloc, x != y),
        _ => Ok(None),
    }
}

fn joined(alloc: Global, a: &[u8], b: &[u8]) -> Result<Option<Bytes>, NoMemory>
    ensures { IfOk result (λ made. made ≡ binary_item BinaryOp.Concat a.now b.now) }
{
    let mut item = Bytes::from_slice(alloc, a)?;
    item.extend_from_slice(b)?;
    Ok(Some(item))
}

fn joined_push(alloc: Global, a: &[u8], b: &[u8]) -> Result<Option<Bytes>, NoMemory>
    ensures { IfOk result (λ made. made ≡ binary_item BinaryOp.ConcatPush a.now b.now) }
{
    if b.len() >= 1 << 32 {
        return Ok(None);
    }
    let mut out = Bytes::from_slice(alloc, a)?.into_vec();
    push_bytes(&mut out, b)?;
    Ok(Some(Listed::from_vec(out)))
}

fn binary_item(alloc: Global, op: BinaryOp, a: &[u8], b: &[u8]) -> Result<Option<Bytes>, NoMemory>
    ensures { IfOk result (λ made. made ≡ binary_item op a.now b.now) }
{
    match op {
        BinaryOp::SameTruth => of_truth(alloc, if truth(a) { truth(b) } else { !truth(b) }),
        BinaryOp::OtherTruth => of_truth(alloc, if truth(a) { !truth(b) } else { truth(b) }),
        BinaryOp::SameBytes => of_truth(alloc, a == b),
        BinaryOp::OtherBytes => of_truth(alloc, a != b),
        BinaryOp::And => of_truth(alloc, truth(a) && truth(b)),
        BinaryOp::Or => of_truth(alloc, truth(a) || truth(b)),
        BinaryOp::Concat => joined(alloc, a, b),
        BinaryOp::ConcatPush => joined_push(alloc, a, b),
        _ => {
            let Some(x) = read_num(a) else {
                return Ok(None);
            };
            let Some(y) = read_num(b) else {
                return Ok(None);
            };
            on_numbers(alloc, op, x, y)
        }
    }
}

// ---- arguments

fn argument_at(at: Spent<'_>, place: Place) -> Option<&[u8]>
    ensures { option_copied result ≡ argument_at at.entry.held.now at.entry.given.now place }
{
    let (arguments, i) = match place {
        Place::Held(i) => (at.held, i),
        Place::Given(i) => (at.given, i),
    };
    match arguments.get(i) {
        Some(item) => Some(item.as_slice()),
        None => None,
    }
}

fn arguments_at(alloc: Global, at: Spent, places: &[Place]) -> Result<Option<Args>, NoMemory>
    ensures { IfOk result (λ made. made ≡ arguments_at at.entry.held.now at.entry.given.now places.now) }
{
    let mut items = Listed::new(alloc);
    for place in places {
        let Some(item) = argument_at(at, *place) else {
            return Ok(None);
        };
        items.push(Bytes::from_slice(alloc, item)?)?;
    }
    Ok(Some(items))
}

// What is left of signatures after a key: the first is served by it where the key is good for it.
fn unserved<'a, C: SigCheck>(
    sigs: &C,
    key: &[u8],
    message: &[u8],
    signatures: &'a [Bytes],
) -> &'a [Bytes]
    ensures { result.now ≡ unserved (C.good_of sigs.now) key.now message.now signatures.now }
{
    match signatures {
        [first, rest @ ..] => {
            if sigs.good(key, message, first.as_slice()) {
                rest
            } else {
                signatures
            }
        }
        [] => signatures,
    }
}

// Signatures of a message, in their order, for some of the keys. Each is served by the first key that is good for it,
// after the key of the signature before.
#[tactic(auto, using(crate::proofs::EvaluationLemmas::next_key, crate::proofs::EvaluationLemmas::last_key))]
fn multi_good<C: SigCheck>(sigs: &C, keys: &[Bytes], message: &[u8], signatures: &[Bytes]) -> bool
    ensures { result ≡ is_multi_good (C.good_of sigs.now) keys.now message.now signatures.now }
{
    let mut left = signatures;
    for key in keys {
        left = unserved(sigs, key.as_slice(), message, left);
    }
    left.is_empty()
}

// ---- core

#[tactic(auto, using(crate::proofs::EvaluationLemmas::literal_bytes))]
fn evaluate<C: SigCheck>(
    alloc: Global,
    sigs: &C,
    at: Spent,
    core: &Core,
) -> Result<Option<Bytes>, NoMemory>
    ensures { IfOk result (λ made. made ≡ item_of (spending_of (C.good_of sigs.now) at.entry) (term_of core.now)) }
{
    match core {
        Core::Param(place) => match argument_at(at, *place) {
            Some(item) => Ok(Some(Bytes::from_slice(alloc, item)?)),
            None => Ok(None),
        },
        Core::Bytes(bytes) => Ok(Some(bytes.copy(alloc)?)),
        Core::Number(n) => of_number(alloc, Some(n.cast_signed())),
        Core::Truth(holds) => of_truth(alloc, *holds),
        Core::Unary { op, arg } => {
            let Some(a) = evaluate(alloc, sigs, at, arg)? else {
                return Ok(None);
            };
            unary_item(alloc, at.context, *op, a.as_slice())
        }
        Core::Binary { op, left, right } => {
            let Some(a) = evaluate(alloc, sigs, at, left)? else {
                return Ok(None);
            };
            let Some(b) = evaluate(alloc, sigs, at, right)? else {
                return Ok(None);
            };
            binary_item(alloc, *op, a.as_slice(), b.as_slice())
        }
        Core::Signed { key, sig } => {
            let Some(key) = argument_at(at, *key) else {
                return Ok(None);
            };
            let Some(sig) = argument_at(at, *sig) else {
                return Ok(None);
            };
            of_truth(alloc, sigs.good(key, &at.context.sig_hash, sig))
        }
        Core::MultiSigned {
            keys,
            sigs: signatures,
        } => {
            let Some(keys) = arguments_at(alloc, at, keys.as_slice())? else {
                return Ok(None);
            };
            let Some(signatures) = arguments_at(alloc, at, signatures.as_slice())? else {
                return Ok(None);
            };
            let message = &at.context.sig_hash;
            of_truth(
                alloc,
                multi_good(sigs, keys.as_slice(), message, signatures.as_slice()),
            )
        }
    }
}

// The core of a typed expression, whose item is its value.
#[tactic(auto, using(crate::proofs::EvaluationLemmas::evaluated))]
fn typed_term(alloc: Global, names: Names, e: &Expr) -> Result<Core, NoMemory>
    requires typed { (scope : Scope) × AreNamesOf scope (names_of names) × IsTypedIn scope e.now }
    ensures { (scope : Scope) → AreNamesOf scope (names_of names.entry) → IsTypedIn scope e.now
        → IfOk result (λ core. IsCoreOf scope e.now (term_of core)) }
{
    match lower_term(alloc, names, e)? {
        Some(core) => Ok(core),
        None => unreachable!(),
    }
}

// What a spending brings: the arguments, of which so many are the contract's.
#[tactic(auto, using(crate::proofs::EvaluationLemmas::splitting))]
fn split<'a>(held: usize, env: &'a [Bytes], context: &'a TxContext) -> Spent<'a>
    ensures { (check : Check) → spending_of check result ≡ spent held env.now context.now check }
{
    let (held, given) = env.split_at(held.min(env.len()));
    Spent {
        held,
        given,
        context,
    }
}

/// The value of an expression of a clause of a contract, these by their numbers from 0; none exactly where it is
/// undefined. The arguments are the contract's and then the clause's, in the order of the parameters.
pub fn eval<C: SigCheck>(
    alloc: Global,
    sigs: &C,
    checked: &Checked,
    contract: usize,
    clause: usize,
    e: &Expr,
    env: &Args,
    context: &TxContext,
) -> Result<Option<Bytes>, NoMemory>
    requires stands { (scope : Scope) × Stands checked.now contract clause e.now scope }
    ensures value { (scope : Scope) → Stands checked.now contract clause e.now scope
        → IfOk result (λ made. made ≡ item_value scope
        (spent (length (parameters scope.contract.params)) env.now context.now (C.good_of sigs.now)) e.now) }
{
    let contract = &checked.source().contracts.as_slice()[contract];
    let clause = &contract.clauses.as_slice()[clause];
    let held = params(alloc, contract.params.as_slice())?;
    let given = params(alloc, clause.params.as_slice())?;
    let names = Names {
        held: held.as_slice(),
        given: given.as_slice(),
    };
    let core = typed_term(alloc, names, e)?;
    evaluate(
        alloc,
        sigs,
        split(held.len(), env.as_slice(), context),
        &core,
    )
}
