//! Laws of numbers, each the contract of a function with nothing to do. The numbers of the machine are those of 64
//! bits, from -2^63 to 2^63 - 1.
ghost use Rattle.std.specs.Prelude.{◌≡◌, ◌≢◌, ◌≤◌, ◌<◌, ◌↔◌, ℤ, pos, length, Some, None, IsTrue};
ghost use Rattle.std.specs.Int.{w64};
ghost use Rattle.std.specs.Int.RustNames.{FitsSigned};
ghost use Rattle.vm_num.specs.Item.{Item, AreBytes, num, num_bytes, is_true, exact};

/// The item of a number has at most 8 bytes. That of a number of the machine is read as that number, and is true
/// exactly where the number is not 0. It does nothing when it runs.
pub fn numbers_read_back()
    ensures read { (n : ℤ) → FitsSigned w64 n → num (num_bytes n) ≡ Some n }
    ensures truth { (n : ℤ) → FitsSigned w64 n → IsTrue (is_true (num_bytes n)) ↔ (n ≢ pos 0) }
    ensures short { (n : ℤ) → length (num_bytes n) ≤ 8 }
    ensures bytes { (n : ℤ) → AreBytes (num_bytes n) }
{}

/// What an item is read as is a number of the machine, and the item is true exactly where that is not 0; it is read as
/// none exactly where it has more than 8 bytes. A result is exact where it is a number of the machine, and else none.
/// It does nothing when it runs.
pub fn numbers_in_range()
    ensures read { (item : Item) (n : ℤ) → AreBytes item → num item ≡ Some n → FitsSigned w64 n }
    ensures truth { (item : Item) (n : ℤ) → AreBytes item → num item ≡ Some n
        → IsTrue (is_true item) ↔ (n ≢ pos 0) }
    ensures none { (item : Item) → (num item ≡ None) ↔ (8 < length item) }
    ensures exact { (z n : ℤ) → (exact z ≡ Some n) ↔ ((n ≡ z) × FitsSigned w64 z) }
{}
