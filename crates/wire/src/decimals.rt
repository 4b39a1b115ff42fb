//! Numbers as words of decimal digits.
ghost use Rattle.std.specs.Prelude.{◌≡◌, ◌≤◌, IfSome, IsTrue, if◌then◌else◌, nat_le, Some, None};
ghost use Rattle.std.specs.List.{list_all};
ghost use Rattle.std.specs.Char.{is_ascii_digit};
ghost use Rattle.std.specs.Str.Parse.{digits_value};
ghost use Rattle.wire.specs.Decimal.{is_decimal, decimal_within};

/// The number of a decimal word, `0` or ASCII digits that begin with 1 to 9, where it is at most `most`.
#[tactic(auto, unfolding(crate::specs::Decimal::decimal_within))]
pub fn decimal_within(word: &[u8], most: u64) -> Option<u64>
    ensures reads { result ≡ decimal_within most word.now }
    ensures small { IfSome result (λ number. number ≤ most) }
{
    if is_decimal(word) {
        value_within(word, most)
    } else {
        None
    }
}

fn is_decimal(word: &[u8]) -> bool
    ensures { result ≡ is_decimal word.now }
{
    match word {
        [b'0'] => true,
        [b'1'..=b'9', rest @ ..] => are_digits(rest),
        _ => false,
    }
}

fn are_digits(word: &[u8]) -> bool
    ensures { result ≡ list_all is_ascii_digit word.now }
{
    word.iter().all(|digit| digit.is_ascii_digit())
}

// The value of digits, where it is at most so much.
#[tactic(auto, using(crate::proofs::Digits::digits))]
fn value_within(digits: &[u8], most: u64) -> Option<u64>
    requires { IsTrue (list_all is_ascii_digit digits.now) }
    ensures { result ≡ (if nat_le (digits_value 10 digits.now) most then Some (digits_value 10 digits.now) else None) }
{
    let mut value: u64 = 0;
    for digit in digits {
        value = value
            .checked_mul(10)?
            .checked_add(u64::from(*digit - b'0'))?;
    }
    if value <= most { Some(value) } else { None }
}
