//! Laws of instructions, each the contract of a function with nothing to do.
ghost use Rattle.std.specs.Prelude.{◌≡◌, ◌<◌, ◌^◌, ℕ, List, [], ◌∷◌, ◌++◌, length, Ok, true};
ghost use Rattle.std.specs.Int.{w32, to_le_bytes};
ghost use Rattle.vm_code.specs.Instruction.{instruction_at, is_plain, is_jump, plain, jump};
ghost use Rattle.vm_code.specs.Laws.{ReadingLaws, InstructionLaws, AssemblyLaws};

/// An instruction lies within its program, and stands in every program that begins with this one, or holds it after a
/// front. For the proofs of crates above; it does nothing when it runs.
pub fn readings()
    ensures { ReadingLaws }
{}

/// What is read of bytes are instructions, each is read of its own bytes again, and no two have the same text. It does
/// nothing when it runs.
pub fn instructions()
    ensures { InstructionLaws }
{}

/// A code with nothing after it, and a jump with its place in four bytes, the lowest first, are read wherever they
/// stand as what they were written for. It does nothing when it runs.
pub fn codes_read_back()
    ensures plain { (code : ℕ) (before after : List ℕ) → is_plain code ≡ true
        → instruction_at (before ++ (code ∷ []) ++ after) (length before) ≡ Ok (plain code) }
    ensures jump { (code place : ℕ) (before after : List ℕ) → is_jump code ≡ true → place < 2 ^ 32
        → instruction_at (before ++ (code ∷ to_le_bytes w32 place) ++ after) (length before)
        ≡ Ok (jump code place) }
{}

/// A program that disassembles has one text, which assembles to that program and no other; of each program and each
/// text it is either so, or there is one first fault. It does nothing when it runs.
pub fn assemblies()
    ensures { AssemblyLaws }
{}
