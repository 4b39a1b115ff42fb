//! A pile of items as the check of many signatures sees it.
ghost use Rattle.std.specs.Prelude.{◌≡◌, ◌≤◌, ◌↔◌, ℕ, List, length, slice_get, option_copied, IsNone};

/// A pile of items that are strings of bytes. Looking at it takes no memory.
pub trait Pile {
    /// The items, the top first.
    ghost items_of: { Self → List (List ℕ) };

    /// The item so many below the top, 0 being the top itself. `None` exactly where there are at most so many.
    fn item(&self, k: u64) -> Option<&[u8]>
        ensures item { option_copied result ≡ slice_get (items_of self.now) k }
        ensures absent { IsNone result ↔ (length (items_of self.now) ≤ k) };
}
