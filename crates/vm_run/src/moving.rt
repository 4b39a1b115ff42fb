//! The instructions that drop, copy and move items.
ghost use Rattle.std.specs.Prelude.{◌≡◌, ◌<◌, ◌≤◌, ◌+◌, ◌^◌, length, take, drop, pos};
ghost use Rattle.vm_stack.specs.Stacks.{held_cost};
ghost use Rattle.vm_num.specs.Item.{num_bytes};
ghost use Rattle.vm_run.specs.Effect.{on_one, on_two, by_count, push_row};
ghost use Rattle.vm_run.specs.Follows.{Follows, Copies};
ghost use Rattle.vm_run.specs.Moving.{drops, copies, moves, ifdup_row, nip_row, tuck_row, pick_row, roll_row};
ghost use Rattle.vm_run.specs.Moving.{stack_rule};

use crate::StepFault;
use crate::machine::Machine;
use crate::operands::{count, top};
use vm_code::codes::{
    DEPTH, DROP, DROP2, DUP, DUP2, DUP3, IFDUP, NIP, OVER, OVER2, PICK, ROLL, ROT, ROT2, SWAP,
    SWAP2, TUCK,
};
use vm_num::{Failure, truth, write_num};

impl Machine {
    /// The lines of the codes 6d to 7d.
    #[tactic(auto, unfolding(crate::specs::Moving::stack_rule))]
    pub fn stack_instruction(&mut self, code: u8) -> Result<(), StepFault>
        requires small { self.old.left + held_cost self.old.stack < 2 ^ 63 }
        ensures { Follows self.old (stack_rule code self.old.stack.items self.old.stack.alt) result self.new }
    {
        match code {
            DROP2 => self.drops(2, 2),
            DUP2 => self.copies(0, 2, 2),
            DUP3 => self.copies(0, 3, 3),
            OVER2 => self.copies(2, 2, 2),
            ROT2 => self.moves_two(4, 2),
            SWAP2 => self.moves_two(2, 2),
            IFDUP => self.ifdup(),
            DEPTH => self.depth(),
            DROP => self.drops(1, 1),
            DUP => self.copies(0, 1, 1),
            NIP => self.nip(),
            OVER => self.copies(1, 1, 1),
            PICK => self.pick(),
            ROLL => self.roll(),
            ROT => self.moves_one(2, 2),
            SWAP => self.moves_one(1, 1),
            TUCK => self.tuck(),
            _ => Err(StepFault::Failed(Failure::BadOpcode)),
        }
    }

    fn drops(&mut self, n: u64, base: u64) -> Result<(), StepFault>
        requires small { self.old.left + held_cost self.old.stack < 2 ^ 63 }
        ensures { Follows self.old (drops n base self.old.stack.items self.old.stack.alt) result self.new }
    {
        if self.stack.depth() < n {
            return Err(StepFault::Failed(Failure::Underflow));
        }
        self.pop(n, base)
    }

    fn copies(&mut self, under: u64, n: u64, base: u64) -> Result<(), StepFault>
        requires few { under + n < 2 ^ 63 }
        ensures { Follows self.old (copies under n base self.old.stack.items self.old.stack.alt) result self.new }
    {
        if self.stack.depth() < under + n {
            return Err(StepFault::Failed(Failure::Underflow));
        }
        if self.left < base {
            return Err(StepFault::Failed(Failure::RunLimit));
        }
        self.left -= base;
        self.copy_all(under, n)
    }

    // Pays for copies of the n items under so many, and pushes them, the deepest first.
    fn copy_all(&mut self, under: u64, n: u64) -> Result<(), StepFault>
        requires few { under + n < 2 ^ 63 }
        requires there { under + n ≤ length self.old.stack.items }
        ensures { Copies self.old (take n (drop under self.old.stack.items)) result self.new }
    {
        let mut wanted = n;
        while 0 < wanted {
            match self.copy(under + n - 1) {
                Ok(()) => wanted -= 1,
                Err(fault) => return Err(fault),
            }
        }
        Ok(())
    }

    fn moves_one(&mut self, under: u64, base: u64) -> Result<(), StepFault>
        requires few { under < 2 ^ 63 }
        ensures { Follows self.old (moves under 1 base self.old.stack.items self.old.stack.alt) result self.new }
    {
        if self.stack.depth() < under + 1 {
            return Err(StepFault::Failed(Failure::Underflow));
        }
        if self.left < base {
            return Err(StepFault::Failed(Failure::RunLimit));
        }
        match self.stack.roll(under) {
            Ok(()) => {
                self.left -= base;
                Ok(())
            }
            Err(_) => Err(StepFault::Failed(Failure::Underflow)),
        }
    }

    fn moves_two(&mut self, under: u64, base: u64) -> Result<(), StepFault>
        requires few { under < 2 ^ 63 }
        ensures { Follows self.old (moves under 2 base self.old.stack.items self.old.stack.alt) result self.new }
    {
        if self.stack.depth() < under + 2 {
            return Err(StepFault::Failed(Failure::Underflow));
        }
        if self.left < base {
            return Err(StepFault::Failed(Failure::RunLimit));
        }
        match self.stack.roll(under + 1) {
            Ok(()) => match self.stack.roll(under + 1) {
                Ok(()) => {
                    self.left -= base;
                    Ok(())
                }
                Err(_) => Err(StepFault::Failed(Failure::Underflow)),
            },
            Err(_) => Err(StepFault::Failed(Failure::Underflow)),
        }
    }

    fn ifdup(&mut self) -> Result<(), StepFault>
        requires small { self.old.left + held_cost self.old.stack < 2 ^ 63 }
        ensures { Follows self.old (on_one ifdup_row self.old.stack.items self.old.stack.alt) result self.new }
    {
        let copies = truth(top(&self.stack)?);
        if copies {
            self.copies(0, 1, 1)
        } else {
            self.pay(1)
        }
    }

    fn depth(&mut self) -> Result<(), StepFault>
        requires small { self.old.left + held_cost self.old.stack < 2 ^ 63 }
        ensures { Follows self.old (push_row (num_bytes (pos (length self.old.stack.items)))) result self.new }
    {
        let depth = write_num(self.stack.depth() as i64);
        self.add(depth.as_slice(), 1)
    }

    fn nip(&mut self) -> Result<(), StepFault>
        requires small { self.old.left + held_cost self.old.stack < 2 ^ 63 }
        ensures { Follows self.old (on_two nip_row self.old.stack.items self.old.stack.alt) result self.new }
    {
        match self.stack.roll(1) {
            Ok(()) => self.pop(1, 1),
            Err(_) => Err(StepFault::Failed(Failure::Underflow)),
        }
    }

    fn tuck(&mut self) -> Result<(), StepFault>
        ensures { Follows self.old (on_two tuck_row self.old.stack.items self.old.stack.alt) result self.new }
    {
        match self.stack.roll(1) {
            Ok(()) => self.copies(1, 1, 1),
            Err(_) => Err(StepFault::Failed(Failure::Underflow)),
        }
    }

    fn pick(&mut self) -> Result<(), StepFault>
        requires small { self.old.left + held_cost self.old.stack < 2 ^ 63 }
        ensures { Follows self.old (by_count pick_row self.old.stack.items self.old.stack.alt) result self.new }
    {
        let n = count(&self.stack)?;
        if self.stack.depth() - 1 <= n {
            return Err(StepFault::Failed(Failure::Underflow));
        }
        self.pop(1, 2)?;
        self.copy(n)
    }

    fn roll(&mut self) -> Result<(), StepFault>
        requires small { self.old.left + held_cost self.old.stack < 2 ^ 63 }
        ensures { Follows self.old (by_count roll_row self.old.stack.items self.old.stack.alt) result self.new }
    {
        let n = count(&self.stack)?;
        if self.stack.depth() - 1 <= n {
            return Err(StepFault::Failed(Failure::Underflow));
        }
        self.pop(1, 2)?;
        match self.stack.roll(n) {
            Ok(()) => Ok(()),
            Err(_) => Err(StepFault::Failed(Failure::Underflow)),
        }
    }
}
