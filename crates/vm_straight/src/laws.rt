//! Laws of straight code, each the contract of a function with nothing to do.
ghost use Rattle.keyed.specs.Functions.{Check};
ghost use Rattle.vm_run.specs.declared.context.Context.{Context};
ghost use Rattle.vm_straight.specs.Laws.{JoiningLaws, StraightLaws};
ghost use Rattle.vm_straight.specs.ChoiceLaws.{ChoiceLaws};
ghost use Rattle.vm_straight.specs.WrappedLaws.{WrappedLaws};

use crate::known::known;

/// Code after code has the bytes, the stack and the needs of the two together. It does nothing when it runs.
pub fn joining()
    ensures { (context : Context) (check : Check) → JoiningLaws context check }
{}

/// Wherever straight code stands in a program, success before it, under any limit, is success after it with the stack
/// that it leaves; and success after it is success before it, under every limit that covers what the code needs. It
/// does nothing when it runs.
pub fn straight_code()
    ensures { (context : Context) (check : Check) → StraightLaws context check }
{
    known();
}

/// Of several pieces of code after guards, the one whose number an item is runs, and the others are passed over: under
/// any limit, success before the first guard says that this one did not fail; and it comes under every limit that
/// covers the guards, this one and what follows. It does nothing when it runs.
pub fn guarded_choice()
    ensures { (context : Context) (check : Check) → ChoiceLaws context check }
{
    known();
}

/// A wrapped program succeeds, under any limit, only where its body does on the items that are pushed and the
/// arguments; and it does so under every limit that covers these, the pushes and what the body needs. It does nothing
/// when it runs.
pub fn wrapped_form()
    ensures { (context : Context) (check : Check) → WrappedLaws context check }
{
    known();
}
