//! Laws of the rows, each the contract of a function with nothing to do.
ghost use Rattle.std.specs.Prelude.{◌≡◌, ◌≤◌, ◌↔◌, ℕ, Bool, List, IsTrue};
ghost use Rattle.keyed.specs.Functions.{Check};
ghost use Rattle.vm_num.specs.Item.{Item, is_true};
ghost use Rattle.vm_ops.specs.Bytes.{bytes_base};
ghost use Rattle.vm_ops.specs.Results.{truth_item};
ghost use Rattle.vm_ops.specs.Numbers.{number_base};
ghost use Rattle.vm_ops.specs.Signatures.{MultiGood, is_multi_good};

/// Every row costs something.
pub fn rows_cost()
    ensures numbers { (code : ℕ) → 1 ≤ number_base code }
    ensures bytes { (code : ℕ) (a b item : Item) → 1 ≤ bytes_base code a b item }
{}

/// The item of a comparison is true exactly where the comparison holds.
pub fn truth_reads_back()
    ensures { (holds : Bool) → is_true (truth_item holds) ≡ holds }
{}

/// Signatures of a message are found good by trying the keys in turn exactly where there are places of keys, each after
/// the one before, at which they are good. It does nothing when it runs.
pub fn signatures_have_places()
    ensures { (check : Check) (keys : List Item) (message : Item) (signatures : List Item)
        → IsTrue (is_multi_good check keys message signatures) ↔ MultiGood check keys message signatures }
{}
