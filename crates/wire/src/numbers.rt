//! Numbers as varints.
ghost use Rattle.std.specs.Prelude.{◌≡◌, ◌↔◌, ◌^◌, ◌<◌, ◌≤◌, ◌++◌, ℕ, List, length, take, drop, IfOk, OnOk, OnErr};
ghost use Rattle.std.specs.Prelude.{IsErrOf, MatchResult};
ghost use Rattle.wire.specs.Spelling.{limit, varint};
ghost use Rattle.wire.specs.Reading.{groups_at, varint_at, IsTooBig, IsNotShortest, IsShort};

use crate::{Bytes, NoMemory, WireFault};

/// The greatest number that is spelled: 2^63 - 1.
pub const MAX_NUMBER: u64 = (1 << 63) - 1;

/// Appends the spelling of a number. After a refusal `out` is as it was.
pub fn put_varint(out: &mut Bytes, n: u64) -> Result<(), NoMemory>
    requires { n < 2 ^ 63 }
    ensures ok { OnOk result (out.new ≡ out.old ++ varint n) }
    ensures err { OnErr result (out.new ≡ out.old) }
{
    let mut groups = [0; 9];
    let mut len = 0;
    let mut left = n;
    while left >= 128 {
        groups[len] = 128 + (left % 128) as u8;
        len += 1;
        left /= 128;
    }
    groups[len] = left as u8;
    out.extend_from_slice(&groups[..len + 1])
}

/// The number with which the bytes begin, and how many of them spell it.
#[tactic(auto, unfolding(crate::specs::Reading::varint_at))]
pub fn take_varint(b: &[u8]) -> Result<(u64, u64), WireFault>
    // What is read is spelled so.
    ensures within { IfOk result (λ x. x.1 ≤ length b.now) }
    ensures spelled { IfOk result (λ x. (x.0 < 2 ^ 63) × (take x.1 b.now ≡ varint x.0)) }
    // What is spelled so is read, whatever follows it.
    ensures read { (n : ℕ) (rest : List ℕ)
        → n < 2 ^ 63
        → b.now ≡ varint n ++ rest
        → result ≡ Ok (n, length (varint n)) }
    // When each fault comes.
    ensures too_big { IsErrOf result WireFault.TooBig ↔ IsTooBig b.now }
    ensures not_shortest { IsErrOf result WireFault.NotShortest ↔ IsNotShortest b.now }
    ensures short { IsErrOf result WireFault.Short ↔ IsShort b.now }
    // The same as a function of the bytes.
    ensures exact { MatchResult result (λ x. varint_at b.now ≡ Ok (x.0, drop x.1 b.now))
        (λ e. varint_at b.now ≡ Err e) }
{
    take_groups(b, 8)
}

// The number at the start, of at most so many bytes and one more, and how many bytes it takes.
#[tactic(auto, unfolding(crate::specs::Reading::groups_at))]
fn take_groups(b: &[u8], more: u8) -> Result<(u64, u64), WireFault>
    requires { more ≤ 8 }
    ensures within { IfOk result (λ x. x.1 ≤ length b.now) }
    ensures below { IfOk result (λ x. x.0 < limit more) }
    ensures exact { MatchResult result (λ x. groups_at more b.now ≡ Ok (x.0, drop x.1 b.now))
        (λ e. groups_at more b.now ≡ Err e) }
{
    let Some((low, rest)) = b.split_first() else {
        return Err(WireFault::Short);
    };
    if *low < 128 {
        return Ok((u64::from(*low), 1));
    }
    if more == 0 {
        return Err(WireFault::TooBig);
    }
    let (high, taken) = take_groups(rest, more - 1)?;
    if high == 0 {
        return Err(WireFault::NotShortest);
    }
    Ok((u64::from(*low) - 128 + 128 * high, taken + 1))
}
