//! Items read as numbers and as truth values, and numbers written as items.
ghost use Rattle.std.specs.Prelude.{◌≡◌, ◌≤◌, length, Some};
ghost use Rattle.vm_num.specs.Item.{Item, num, num_bytes, is_true, AreBytes};

use std::marker::Model;

/// The shortest spelling of a number, of at most 8 bytes.
#[derive(Debug, Drop)]
pub struct Num {
    bytes: [u8; 8],
    len: usize,
}

impl Model for Num {
    ghost use Rattle.std.specs.Prelude.{List, ℕ, ◌≤◌, take};

    ghost Value = { List ℕ };

    ghost view = { λ n. take n.len n.bytes };

    ghost invariant = { λ n. n.len ≤ 8 };
}

impl Num {
    /// The bytes, the lowest first.
    pub fn as_slice(&self) -> &[u8]
        ensures bytes { result.now ≡ self.now }
        ensures short { length result.now ≤ 8 }
    {
        &self.bytes[..self.len]
    }
}

/// The number that an item is read as: little-endian, in two's complement at 64 bits, a missing high byte being
/// zero. `None` exactly for more than 8 bytes.
pub fn read_num(b: &[u8]) -> Option<i64>
    ensures { result ≡ num b.now }
{
    if b.len() > 8 {
        return None;
    }
    let mut filled = [0u8; 8];
    filled[..b.len()].copy_from_slice(b);
    Some(u64::from_le_bytes(filled).cast_signed())
}

/// The shortest item that is read as this number.
pub fn write_num(n: i64) -> Num
    ensures spelled { result ≡ num_bytes n }
    ensures read_back { num result ≡ Some n }
    ensures shortest { (b : Item) → AreBytes b → num b ≡ Some n → length result ≤ length b }
{
    let bytes = n.cast_unsigned().to_le_bytes();
    let mut len = 8;
    while len > 0 && bytes[len - 1] == 0 {
        len -= 1;
    }
    Num { bytes, len }
}

/// Whether an item has a byte other than zero.
pub fn truth(b: &[u8]) -> bool
    ensures { result ≡ is_true b.now }
{
    b.iter().any(|x| *x != 0)
}
