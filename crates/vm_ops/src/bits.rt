//! Bitwise operations on items.
ghost use Rattle.std.specs.Prelude.{◌≡◌, length, map, slice_index};
ghost use Rattle.std.specs.Int.{w8, bit_not};
ghost use Rattle.vm_ops.specs.Bits.{each_of};
ghost use Rattle.vm_ops.specs.Operators.{bit_operation};

/// An operator on two bytes.
#[derive(Clone, Copy)]
pub enum Bitwise {
    And,
    Or,
    Xor,
}

/// Fills the bytes with those that the operator makes of a and of b, a missing byte being zero.
pub fn fill(op: Bitwise, a: &[u8], b: &[u8], bytes: &mut [u8])
    ensures { bytes.new ≡ each_of (bit_operation op) a.now b.now (length bytes.old) }
{
    for i in 0..bytes.len() {
        bytes[i] = combined(op, byte(a, i), byte(b, i));
    }
}

/// Flips every bit.
pub fn invert(bytes: &mut [u8])
    ensures { bytes.new ≡ map (bit_not w8) bytes.old }
{
    for x in bytes.iter_mut() {
        *x = !*x;
    }
}

fn combined(op: Bitwise, x: u8, y: u8) -> u8
    ensures { result ≡ bit_operation op x y }
{
    match op {
        Bitwise::And => x & y,
        Bitwise::Or => x | y,
        Bitwise::Xor => x ^ y,
    }
}

fn byte(bytes: &[u8], i: usize) -> u8
    ensures { result ≡ slice_index bytes.now i }
{
    if i < bytes.len() { bytes[i] } else { 0 }
}
