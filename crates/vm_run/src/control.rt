//! The instructions that push data and small numbers, jump and test, and those of the alt stack.
ghost use Rattle.std.specs.Prelude.{◌≡◌, ◌<◌, ◌≤◌, ◌+◌, ◌^◌, length, pos};
ghost use Rattle.vm_stack.specs.Stacks.{held_cost};
ghost use Rattle.vm_code.specs.Seen.{seen};
ghost use Rattle.vm_num.specs.Item.{num_bytes};
ghost use Rattle.vm_run.specs.Effect.{push_row, on_one, on_alt};
ghost use Rattle.vm_run.specs.Follows.{Follows};
ghost use Rattle.vm_run.specs.Moving.{push_rule, jump_row, jump_if_row, verify_row, to_alt_row, from_alt_row};
ghost use Rattle.vm_run.specs.Moving.{control_rule};

use crate::StepFault;
use crate::machine::Machine;
use crate::operands::top;
use vm_code::Instruction;
use vm_code::codes::{
    FAIL, FROMALTSTACK, JUMP, JUMPIF, NEGATIVE_ONE, NOP, ONE, PUSHDATA4, SIXTEEN, TOALTSTACK,
    VERIFY,
};
use vm_num::{Failure, truth, write_num};

impl Machine {
    /// The lines of FALSE, of data and of the small numbers.
    pub fn push_instruction(&mut self, i: &Instruction<'_>) -> Result<(), StepFault>
        requires code { i.now.code ≤ 0x60 }
        requires small { self.old.left + held_cost self.old.stack < 2 ^ 63 }
        ensures { Follows self.old (push_rule (seen i.now) self.old.stack.items self.old.stack.alt) result self.new }
    {
        match i.code {
            ..=PUSHDATA4 => self.add(i.pushed, 1),
            NEGATIVE_ONE => self.add(write_num(-1).as_slice(), 1),
            ONE..=SIXTEEN => self.push_small(i.code - 80),
            _ => Err(StepFault::Failed(Failure::BadOpcode)),
        }
    }

    // Pushes a number from 1 to 16.
    #[tactic(auto, using(crate::proofs::Small::small))]
    fn push_small(&mut self, n: u8) -> Result<(), StepFault>
        requires some { 0 < n }
        requires few { n ≤ 16 }
        ensures { Follows self.old (push_row (num_bytes (pos n))) result self.new }
    {
        self.add(&[n], 1)
    }

    /// The lines of the codes 61 to 6c, in a program of this length.
    #[tactic(auto, unfolding(crate::specs::Moving::control_rule))]
    pub fn control_instruction(&mut self, i: &Instruction<'_>, size: u64) -> Result<(), StepFault>
        requires small { self.old.left + held_cost self.old.stack < 2 ^ 63 }
        ensures { Follows self.old (control_rule (seen i.now) size self.old.stack.items self.old.stack.alt) result
            self.new }
    {
        match i.code {
            NOP => self.pay(1),
            JUMP => self.jump(i.target as u64, size),
            JUMPIF => self.jump_if(i.target as u64, size),
            VERIFY => self.verify_top(),
            FAIL => Err(StepFault::Failed(Failure::FailCode)),
            TOALTSTACK => self.to_alt(),
            FROMALTSTACK => self.from_alt(),
            _ => Err(StepFault::Failed(Failure::BadOpcode)),
        }
    }

    fn jump(&mut self, place: u64, size: u64) -> Result<(), StepFault>
        ensures { Follows self.old (jump_row 0 place size) result self.new }
    {
        if size < place {
            return Err(StepFault::Failed(Failure::BadJump));
        }
        self.pay(1)?;
        self.at = place;
        Ok(())
    }

    fn jump_if(&mut self, place: u64, size: u64) -> Result<(), StepFault>
        requires small { self.old.left + held_cost self.old.stack < 2 ^ 63 }
        ensures { Follows self.old (on_one (jump_if_row place size) self.old.stack.items self.old.stack.alt) result
            self.new }
    {
        let jumps = truth(top(&self.stack)?);
        if jumps {
            self.pop_and_jump(place, size)
        } else {
            self.pop(1, 1)
        }
    }

    // Pops an item and goes on at a place.
    fn pop_and_jump(&mut self, place: u64, size: u64) -> Result<(), StepFault>
        requires there { 1 ≤ length self.old.stack.items }
        requires small { self.old.left + held_cost self.old.stack < 2 ^ 63 }
        ensures { Follows self.old (jump_row 1 place size) result self.new }
    {
        if size < place {
            return Err(StepFault::Failed(Failure::BadJump));
        }
        self.pop(1, 1)?;
        self.at = place;
        Ok(())
    }

    fn verify_top(&mut self) -> Result<(), StepFault>
        requires small { self.old.left + held_cost self.old.stack < 2 ^ 63 }
        ensures { Follows self.old (on_one verify_row self.old.stack.items self.old.stack.alt) result self.new }
    {
        let holds = truth(top(&self.stack)?);
        if holds {
            self.pop(1, 1)
        } else {
            Err(StepFault::Failed(Failure::VerifyFalse))
        }
    }

    fn to_alt(&mut self) -> Result<(), StepFault>
        ensures { Follows self.old (on_one to_alt_row self.old.stack.items self.old.stack.alt) result self.new }
    {
        if self.stack.depth() == 0 {
            return Err(StepFault::Failed(Failure::Underflow));
        }
        if self.left < 2 {
            return Err(StepFault::Failed(Failure::RunLimit));
        }
        match self.stack.to_alt() {
            Ok(()) => {
                self.left -= 2;
                Ok(())
            }
            Err(_) => Err(StepFault::NoMemory),
        }
    }

    fn from_alt(&mut self) -> Result<(), StepFault>
        ensures { Follows self.old (on_alt from_alt_row self.old.stack.items self.old.stack.alt) result self.new }
    {
        if self.stack.alt_depth() == 0 {
            return Err(StepFault::Failed(Failure::AltUnderflow));
        }
        if self.left < 2 {
            return Err(StepFault::Failed(Failure::RunLimit));
        }
        match self.stack.from_alt() {
            Ok(()) => {
                self.left -= 2;
                Ok(())
            }
            Err(_) => Err(StepFault::NoMemory),
        }
    }
}
