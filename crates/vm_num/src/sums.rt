//! Sums and differences of 64-bit numbers.
ghost use Rattle.std.specs.Prelude.{◌≡◌};
ghost use Rattle.vm_num.specs.Item.{sum_of, difference_of};

/// The sum. `None` exactly where it is not a 64-bit number.
pub fn add(a: i64, b: i64) -> Option<i64>
    ensures { result ≡ sum_of a b }
{
    a.checked_add(b)
}

/// The difference. `None` exactly where it is not a 64-bit number.
pub fn sub(a: i64, b: i64) -> Option<i64>
    ensures { result ≡ difference_of a b }
{
    a.checked_sub(b)
}
