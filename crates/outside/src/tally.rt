//! How many calls were made and how many of them failed.
ghost use Rattle.std.specs.Prelude.{◌≡◌};
ghost use Rattle.outside.specs.Fault.{Counts};

use crate::FileFault;

/// Counts the answer where it is a failure.
pub fn count_fault<T>(count: &mut u64, answer: Result<T, FileFault>) -> Result<T, FileFault>
    ensures same { result ≡ answer }
    ensures count { Counts count.old count.new result }
{
    if let Err(FileFault::Failed) = &answer {
        *count = count.saturating_add(1);
    }
    answer
}
