//! What stands after a code: the bytes that a data code pushes, or the place that a jump leads to.
ghost use Rattle.std.specs.Prelude.{◌≡◌, ◌<◌, ◌≤◌, ◌^◌, ◌+◌, [], ◌∷◌, length, IfOk};
ghost use Rattle.vm_code.specs.Instruction.{data_at, counted_at, jump_at, little_endian};
ghost use Rattle.vm_code.specs.Seen.{Reads};

use crate::{CodeFault, Instruction};

// `count` bytes after a field of `field` bytes.
pub fn counted_data(
    code: u8,
    field: usize,
    count: u64,
    behind: &[u8],
) -> Result<Instruction<'_>, CodeFault>
    requires short { field ≤ 4 }
    requires count { count < 2 ^ 32 }
    ensures reads { Reads result (data_at code field count behind.now) }
    ensures within { IfOk result (λ i. (0 < i.len) × (i.len ≤ 1 + length behind.now)) }
    ensures target { IfOk result (λ i. i.target < 2 ^ 32) }
{
    let end = field + count as usize;
    if end > behind.len() {
        return Err(CodeFault::Short);
    }
    Ok(Instruction {
        code,
        pushed: &behind[field..end],
        target: 0,
        len: 1 + end as u64,
    })
}

// The count stands in the field, its lowest byte first.
pub fn counted(code: u8, field: usize, behind: &[u8]) -> Result<Instruction<'_>, CodeFault>
    requires { field ≤ 4 }
    ensures reads { Reads result (counted_at code field behind.now) }
    ensures within { IfOk result (λ i. (0 < i.len) × (i.len ≤ 1 + length behind.now)) }
    ensures target { IfOk result (λ i. i.target < 2 ^ 32) }
{
    if field > behind.len() {
        return Err(CodeFault::Short);
    }
    counted_data(code, field, low_first(&behind[..field]) as u64, behind)
}

// The place stands in four bytes, its lowest byte first.
pub fn jump(code: u8, behind: &[u8]) -> Result<Instruction<'_>, CodeFault>
    ensures reads { Reads result (jump_at code behind.now) }
    ensures within { IfOk result (λ i. (0 < i.len) × (i.len ≤ 1 + length behind.now)) }
    ensures target { IfOk result (λ i. i.target < 2 ^ 32) }
{
    match behind {
        [a, b, c, d, ..] => Ok(Instruction {
            code,
            pushed: &[],
            target: place(*a, *b, *c, *d),
            len: 5,
        }),
        _ => Err(CodeFault::Short),
    }
}

// The place that four bytes say, the lowest first.
fn place(a: u8, b: u8, c: u8, d: u8) -> u32
    ensures value { result ≡ little_endian (a ∷ b ∷ c ∷ d ∷ []) }
    ensures bound { result < 2 ^ 32 }
{
    a as u32 + 256 * (b as u32 + 256 * (c as u32 + 256 * d as u32))
}

fn low_first(bytes: &[u8]) -> u32
    requires { length bytes.now ≤ 4 }
    ensures value { result ≡ little_endian bytes.now }
    ensures bound { result < 256 ^ length bytes.now }
{
    match bytes {
        [] => 0,
        [low, high @ ..] => *low as u32 + 256 * low_first(high),
    }
}
