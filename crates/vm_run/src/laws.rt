//! Laws of runs, each the contract of a function with nothing to do.
ghost use Rattle.std.specs.Prelude.{◌≡◌, ◌<◌, ◌≤◌, ◌+◌, ◌^◌, ◌++◌, ℕ, ℤ, List, length};
ghost use Rattle.vm_num.specs.Item.{Item, num_bytes, total_cost};
ghost use Rattle.vm_num.specs.Push.{push_of, push_int_of};
ghost use Rattle.vm_code.specs.Instruction.{instruction_at};
ghost use Rattle.vm_run.specs.Laws.{held, LineLaws, MoveLaws, PaymentLaws, StepLaws, StretchLaws};
ghost use Rattle.vm_run.specs.Pushes.{ReadsData, ReadsPush};
ghost use Rattle.vm_run.specs.Row.{Context};
ghost use Rattle.keyed.specs.Functions.{Check};
ghost use Rattle.vm_run.specs.Run.{Outcome, Ended, Run, count_of};
ghost use Rattle.vm_run.specs.Stretch.{State, RunFrom};
ghost use Rattle.vm_run.specs.Verdict.{HasVerdict};
ghost use Rattle.vm_run.specs.declared.verdict.Verdict.{Verdict};

/// The line of an instruction that is no jump is the same in programs of all lengths. That of every code but JUMP,
/// JUMPIF, TOALTSTACK, FROMALTSTACK and CHECKPREDICATE leaves the alt stack, does not jump and calls no program. It
/// does nothing when it runs.
pub fn lines()
    ensures { (context : Context) (check : Check) → LineLaws context check }
{}

/// The move at a place is that of the line of the instruction that is read there; where none is, the run stops. It does
/// nothing when it runs.
pub fn moves()
    ensures { (context : Context) (check : Check) (program : List ℕ) (place : ℕ)
        → MoveLaws context check program place }
{}

/// What an instruction's line comes to, in numbers: the run stops where the base or the price is not covered, or goes
/// on with so much left, or a child is opened with so much given to it. It does nothing when it runs.
pub fn payments()
    ensures { (behind : ℕ) (items alt : List Item) (limit : ℕ) → PaymentLaws behind items alt limit }
{}

/// A run has no two outcomes.
pub fn one_outcome()
    ensures { (context : Context) (check : Check) (program : List ℕ) (place : ℕ) (items alt : List Item) (limit : ℕ)
        (a b : Outcome)
        → Run context check program place items alt limit a
        → Run context check program place items alt limit b
        → a ≡ b }
{}

/// The run-limit law, over nested runs. Of a run that ends, what is left, what both stacks hold, what was spent and
/// what was lost in predicates are together what the limit and the items came to at its start. However a run ends, no
/// more instructions complete in it than that.
pub fn run_limit()
    ensures balance { (context : Context) (check : Check) (program : List ℕ) (s : State)
        (left : ℕ) (items alt : List Item) (count spent lost : ℕ)
        → RunFrom context check program s (Ended left items alt count spent lost)
        → left + (total_cost items + total_cost alt) + spent + lost ≡ held s }
    ensures bounded { (context : Context) (check : Check) (program : List ℕ) (s : State)
        (outcome : Outcome)
        → RunFrom context check program s outcome
        → count_of outcome ≤ held s }
{}

/// Completed instructions cost something, join, and run on: the steps of a run compose.
pub fn steps()
    ensures { (context : Context) (check : Check) (program : List ℕ) → StepLaws context check program }
{}

/// Instructions that complete in a stretch of code complete in every program that holds the stretch at its place, jumps
/// within it included. A stretch may be put together of parts, each of which is said of its own code alone.
pub fn stretches()
    ensures { (context : Context) (check : Check) → StretchLaws context check }
{}

/// What `push_bytes` and `push_int` write is one instruction wherever it stands, and pushes the item or the number that
/// it was written for. Its code is 60 at most, and so none of a jump.
pub fn pushes_read_back()
    ensures bytes { (item before after : List ℕ) → length item < 2 ^ 32 →
        ReadsData (instruction_at (before ++ push_of item ++ after) (length before)) item (length (push_of item)) }
    ensures item { (item before after : List ℕ) → length item < 2 ^ 32 →
        ReadsPush (instruction_at (before ++ push_of item ++ after) (length before)) item (length (push_of item)) }
    ensures number { (n : ℤ) (before after : List ℕ)
        → ReadsPush (instruction_at (before ++ push_int_of n ++ after) (length before)) (num_bytes n)
        (length (push_int_of n)) }
{}

/// A run has an outcome, from every place of a program and from its end.
pub fn some_outcome()
    ensures { (context : Context) (check : Check) (program : List ℕ) (place : ℕ) (items alt : List Item) (limit : ℕ)
        → place ≤ length program
        → (outcome : Outcome) × Run context check program place items alt limit outcome }
{}

/// A program has a verdict on its arguments under a limit, and no two.
pub fn one_verdict()
    ensures some { (context : Context) (check : Check) (program : List ℕ) (args : List Item) (limit : ℕ) →
        (verdict : Verdict) × HasVerdict context check program args limit verdict }
    ensures one { (context : Context) (check : Check) (program : List ℕ) (args : List Item) (limit : ℕ) (a b : Verdict)
        → HasVerdict context check program args limit a
        → HasVerdict context check program args limit b
        → a ≡ b }
{}
