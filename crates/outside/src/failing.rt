//! The calls that are to fail, by their numbers.
ghost use Rattle.std.specs.Prelude.{◌↔◌, Contains, IsTrue};

/// Whether a call is among those that are to fail.
pub fn is_to_fail(fails: &[u64], call: u64) -> bool
    ensures { IsTrue result ↔ Contains fails.now call }
{
    fails.contains(&call)
}
