//! Multiplication, division and shifts of 64-bit numbers.
ghost use Rattle.std.specs.Prelude.{◌≡◌};
ghost use Rattle.vm_num.specs.Operations.{product_of, quotient_of, remainder_of, left_shift_of, right_shift_of};

/// The product (Chain VM 1, MUL). `None` exactly where it is not a 64-bit number.
pub fn mul(a: i64, b: i64) -> Option<i64>
    ensures { result ≡ product_of a b }
{
    a.checked_mul(b)
}

/// The quotient, rounded toward zero (Chain VM 1, DIV). `None` exactly where the divisor is 0 or the quotient, that of
/// -2^63 by -1, is not a 64-bit number.
pub fn div(a: i64, b: i64) -> Option<i64>
    ensures { result ≡ quotient_of a b }
{
    a.checked_div(b)
}

/// What the quotient leaves, with the sign of `a` (Chain VM 1, MOD). `None` exactly where the divisor is 0.
pub fn rem(a: i64, b: i64) -> Option<i64>
    ensures { result ≡ remainder_of a b }
{
    match b {
        -1 => Some(0),
        _ => a.checked_rem(b),
    }
}

/// The number times two so many times (Chain VM 1, LSHIFT). `None` exactly where the count is negative or the result is
/// not a 64-bit number; 0 stays 0 at every count.
pub fn shl(a: i64, count: i64) -> Option<i64>
    ensures { result ≡ left_shift_of a count }
{
    if count < 0 {
        None
    } else if count < 63 {
        mul(a, 1 << count)
    } else if a == 0 {
        Some(0)
    } else if a == -1 && count == 63 {
        Some(i64::MIN)
    } else {
        None
    }
}

/// The number halved so many times, rounded down (Chain VM 1, RSHIFT). `None` exactly where the count is negative.
pub fn shr(a: i64, count: i64) -> Option<i64>
    ensures { result ≡ right_shift_of a count }
{
    if count < 0 {
        None
    } else {
        Some(a >> count.min(63))
    }
}
