//! The rows that make a number or a truth value of numbers.
ghost use Rattle.std.specs.Prelude.{◌≡◌, ◌≢◌, ◌≤◌, pos, neg_ℤ, unsigned_abs, Ok};
ghost use Rattle.vm_num.specs.Item.{exact};
ghost use Rattle.vm_ops.specs.Results.{number_item, truth_item};
ghost use Rattle.vm_ops.specs.Numbers.{IsNumberCode, by_divisor, by_count, one_number_result, arithmetic_result};
ghost use Rattle.vm_ops.specs.Numbers.{comparison_result, number_result};

use crate::codes::{
    ABS, ADD, ADD_ONE, DIV, DOUBLE, GREATERTHAN, GREATERTHANOREQUAL, HALVE, LESSTHAN,
    LESSTHANOREQUAL, LSHIFT, MAX, MIN, MOD, MUL, NEGATE, NOT, NOT_ZERO, NUMEQUAL, NUMNOTEQUAL,
    RSHIFT, SUB, SUB_ONE,
};
use vm_num::{Failure, Num, add, div, mul, rem, shl, shr, sub, write_num};

/// The result of a row on numbers, as the item that is pushed: the codes 8b to 99, 9c, and 9e to a5 (Chain VM 1, 1ADD
/// to WITHIN). Of a, b and c, the deepest first, a row uses as many as it takes. A comparison gives `01` or empty.
///
/// `DivZero` is a divisor of 0, `BadValue` a negative count of a shift, and `Range` any other result that is not a
/// 64-bit number.
pub fn number_row(code: u8, a: i64, b: i64, c: i64) -> Result<Num, Failure>
    requires { IsNumberCode code }
    ensures { result ≡ number_result code a b c }
{
    match code {
        ..=NOT_ZERO => one_number(code, a),
        ADD..=RSHIFT => arithmetic(code, a, b),
        _ => comparison(code, a, b, c),
    }
}

#[tactic(auto, unfolding(crate::specs::Numbers::one_number_result))]
fn one_number(code: u8, a: i64) -> Result<Num, Failure>
    requires low { 0x8b ≤ code }
    requires high { code ≤ 0x92 }
    ensures { result ≡ one_number_result code a }
{
    match code {
        ADD_ONE => number(add(a, 1)),
        SUB_ONE => number(sub(a, 1)),
        DOUBLE => number(mul(a, 2)),
        HALVE => number(shr(a, 1)),
        NEGATE => number(negative(a)),
        ABS => number(absolute(a)),
        NOT => Ok(truth_num(a == 0)),
        _ => Ok(truth_num(a != 0)),
    }
}

#[tactic(auto, unfolding(crate::specs::Numbers::arithmetic_result))]
fn arithmetic(code: u8, a: i64, b: i64) -> Result<Num, Failure>
    requires low { 0x93 ≤ code }
    requires high { code ≤ 0x99 }
    ensures { result ≡ arithmetic_result code a b }
{
    match code {
        ADD => number(add(a, b)),
        SUB => number(sub(a, b)),
        MUL => number(mul(a, b)),
        DIV => by_divisor(b, div(a, b)),
        MOD => by_divisor(b, rem(a, b)),
        LSHIFT => by_count(b, shl(a, b)),
        _ => by_count(b, shr(a, b)),
    }
}

#[tactic(auto, unfolding(crate::specs::Numbers::comparison_result))]
fn comparison(code: u8, a: i64, b: i64, c: i64) -> Result<Num, Failure>
    requires low { 0x9c ≤ code }
    requires verifies { code ≢ 0x9d }
    requires high { code ≤ 0xa5 }
    ensures { result ≡ comparison_result code a b c }
{
    match code {
        NUMEQUAL => Ok(truth_num(a == b)),
        NUMNOTEQUAL => Ok(truth_num(a != b)),
        LESSTHAN => Ok(truth_num(a < b)),
        GREATERTHAN => Ok(truth_num(a > b)),
        LESSTHANOREQUAL => Ok(truth_num(a <= b)),
        GREATERTHANOREQUAL => Ok(truth_num(a >= b)),
        MIN => Ok(write_num(a.min(b))),
        MAX => Ok(write_num(a.max(b))),
        _ => Ok(truth_num(b <= a && a < c)),
    }
}

fn number(n: Option<i64>) -> Result<Num, Failure>
    ensures { result ≡ number_item n }
{
    match n {
        Some(n) => Ok(write_num(n)),
        None => Err(Failure::Range),
    }
}

#[tactic(auto, unfolding(vm_num::specs::Item::num_bytes))]
fn truth_num(holds: bool) -> Num
    ensures { result ≡ truth_item holds }
{
    if holds { write_num(1) } else { write_num(0) }
}

fn negative(a: i64) -> Option<i64>
    ensures { result ≡ exact (neg_ℤ a) }
{
    a.checked_neg()
}

fn absolute(a: i64) -> Option<i64>
    ensures { result ≡ exact (pos (unsigned_abs a)) }
{
    a.checked_abs()
}

fn by_divisor(divisor: i64, n: Option<i64>) -> Result<Num, Failure>
    ensures { result ≡ by_divisor divisor n }
{
    if divisor == 0 {
        Err(Failure::DivZero)
    } else {
        number(n)
    }
}

fn by_count(count: i64, n: Option<i64>) -> Result<Num, Failure>
    ensures { result ≡ by_count count n }
{
    if count < 0 {
        Err(Failure::BadValue)
    } else {
        number(n)
    }
}
