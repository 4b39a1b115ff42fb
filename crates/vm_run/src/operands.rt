//! The operands of an instruction, read off a data stack.
ghost use Rattle.std.specs.Prelude.{◌≡◌, Some, None};
ghost use Rattle.vm_num.specs.Item.{num};
ghost use Rattle.vm_run.specs.Operands.{IsTop, AreTopTwo, IsNumber, AreTwoNumbers, AreThreeNumbers, IsSized, IsPart};
ghost use Rattle.vm_run.specs.Operands.{IsCount, IsCall};
ghost use Rattle.vm_run.specs.Run.{top_is_true};

use keyed::Pile;
use vm_num::{Failure, read_num, truth};
use vm_stack::Stack;

/// The top item.
pub fn top(stack: &Stack) -> Result<&[u8], Failure>
    ensures { IsTop stack.now.items result }
{
    match stack.item(0) {
        Some(a) => Ok(a),
        None => Err(Failure::Underflow),
    }
}

/// The two top items, the deeper first.
pub fn top_two(stack: &Stack) -> Result<(&[u8], &[u8]), Failure>
    ensures { AreTopTwo stack.now.items result }
{
    match (stack.item(1), stack.item(0)) {
        (Some(a), Some(b)) => Ok((a, b)),
        _ => Err(Failure::Underflow),
    }
}

/// The top item as a number.
pub fn number(stack: &Stack) -> Result<i64, Failure>
    ensures { IsNumber stack.now.items result }
{
    match stack.item(0) {
        Some(a) => read_num(a).ok_or(Failure::BadNumber),
        None => Err(Failure::Underflow),
    }
}

/// The two top items as numbers, the deeper first.
pub fn two_numbers(stack: &Stack) -> Result<(i64, i64), Failure>
    ensures { AreTwoNumbers stack.now.items result }
{
    match (stack.item(1), stack.item(0)) {
        (Some(a), Some(b)) => match (read_num(a), read_num(b)) {
            (Some(x), Some(y)) => Ok((x, y)),
            _ => Err(Failure::BadNumber),
        },
        _ => Err(Failure::Underflow),
    }
}

/// The three top items as numbers, the deepest first.
pub fn three_numbers(stack: &Stack) -> Result<(i64, i64, i64), Failure>
    ensures { AreThreeNumbers stack.now.items result }
{
    match (stack.item(2), stack.item(1), stack.item(0)) {
        (Some(a), Some(b), Some(c)) => match (read_num(a), read_num(b), read_num(c)) {
            (Some(x), Some(y), Some(z)) => Ok((x, y, z)),
            _ => Err(Failure::BadNumber),
        },
        _ => Err(Failure::Underflow),
    }
}

/// An item, and a number above it.
pub fn sized(stack: &Stack) -> Result<(&[u8], i64), Failure>
    ensures { IsSized stack.now.items result }
{
    match (stack.item(1), stack.item(0)) {
        (Some(a), Some(n)) => match read_num(n) {
            Some(size) => Ok((a, size)),
            None => Err(Failure::BadNumber),
        },
        _ => Err(Failure::Underflow),
    }
}

/// An item, and two numbers above it, the deeper first.
pub fn part(stack: &Stack) -> Result<(&[u8], i64, i64), Failure>
    ensures { IsPart stack.now.items result }
{
    match (stack.item(2), stack.item(1), stack.item(0)) {
        (Some(a), Some(m), Some(n)) => match (read_num(m), read_num(n)) {
            (Some(from), Some(size)) => Ok((a, from, size)),
            _ => Err(Failure::BadNumber),
        },
        _ => Err(Failure::Underflow),
    }
}

/// The top item as a count.
pub fn count(stack: &Stack) -> Result<u64, Failure>
    ensures { IsCount stack.now.items result }
{
    match stack.item(0) {
        Some(a) => match read_num(a) {
            Some(n) if 0 <= n => Ok(n as u64),
            Some(_) => Err(Failure::BadValue),
            None => Err(Failure::BadNumber),
        },
        None => Err(Failure::Underflow),
    }
}

/// The count of items and the limit that CHECKPREDICATE takes, with a program between them; so many items are below.
pub fn called(stack: &Stack) -> Result<(u64, u64), Failure>
    ensures { IsCall stack.now.items result }
{
    match (stack.item(2), stack.item(0)) {
        (Some(n), Some(l)) => match (read_num(n), read_num(l)) {
            (Some(count), Some(limit)) => {
                if count < 0 || limit < 0 {
                    return Err(Failure::BadValue);
                }
                if stack.depth() - 3 < count as u64 {
                    return Err(Failure::Underflow);
                }
                Ok((count as u64, limit as u64))
            }
            _ => Err(Failure::BadNumber),
        },
        _ => Err(Failure::Underflow),
    }
}

/// Whether there is a top item, and it is true.
pub fn top_is_true(stack: &Stack) -> bool
    ensures { result ≡ top_is_true stack.now.items }
{
    match stack.item(0) {
        Some(t) => truth(t),
        None => false,
    }
}
