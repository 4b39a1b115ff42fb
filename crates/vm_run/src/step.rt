//! One step of a run.
ghost use Rattle.std.specs.Prelude.{◌≢◌, ◌<◌, ◌+◌, ◌^◌, length};
ghost use Rattle.vm_code.specs.Seen.{seen};
ghost use Rattle.vm_stack.specs.Stacks.{held_cost};
ghost use Rattle.vm_run.specs.Follows.{Follows, Leads, LeadsBy};
ghost use Rattle.vm_run.specs.Row.{NumbersFit, rule};
ghost use Rattle.vm_run.specs.Run.{move};

use crate::machine::Machine;
use crate::{Context, StepFault};
use keyed::SigCheck;
use vm_code::codes::{ADD_ONE, CATPUSHDATA, CHECKPREDICATE, FROMALTSTACK, SIXTEEN, TUCK, WITHIN};
use vm_code::{CodeFault, Instruction, next};
use vm_num::Failure;

/// What a step came to.
#[derive(Clone, Copy)]
pub enum Done {
    /// The instruction is complete.
    Moved,
    /// It is CHECKPREDICATE, and complete once its child has run. The machine stands after it, and is otherwise as it
    /// was.
    Called,
}

impl Machine {
    /// Runs the instruction at the machine's place. `scratch` is used for what it makes.
    // Inlined: as a call of its own it would have its answer written to memory and read again at each instruction.
    #[inline(always)]
    pub fn step<C: SigCheck>(
        &mut self,
        ctx: &Context,
        sigs: &C,
        program: &[u8],
        scratch: &mut Vec<u8>,
    ) -> Result<Done, StepFault>
        requires place { self.old.at < length program.now }
        requires small { self.old.left + held_cost self.old.stack < 2 ^ 63 }
        requires numbers { NumbersFit ctx.now }
        ensures { Leads self.old.stack self.old.left (move ctx.now (C.good_of sigs.now) program.now self.old.at
            self.old.stack.items self.old.stack.alt self.old.left) result self.new }
    {
        match next(program, self.at) {
            Ok(i) => {
                self.at += i.len;
                self.complete(ctx, sigs, &i, program.len() as u64, scratch)
            }
            Err(CodeFault::Short) => Err(StepFault::Failed(Failure::Short)),
            Err(CodeFault::BadOpcode) => Err(StepFault::Failed(Failure::BadOpcode)),
            Err(CodeFault::NoMemory) => Err(StepFault::NoMemory),
        }
    }

    // Carries out an instruction that the machine stands after, in a program of this length.
    fn complete<C: SigCheck>(
        &mut self,
        ctx: &Context,
        sigs: &C,
        i: &Instruction<'_>,
        size: u64,
        scratch: &mut Vec<u8>,
    ) -> Result<Done, StepFault>
        requires small { self.old.left + held_cost self.old.stack < 2 ^ 63 }
        requires numbers { NumbersFit ctx.now }
        ensures { LeadsBy self.old (rule ctx.now (C.good_of sigs.now) (seen i.now) size self.old.stack.items
            self.old.stack.alt) result self.new }
    {
        if i.code == CHECKPREDICATE {
            return Ok(Done::Called);
        }
        self.instruction(ctx, sigs, i, size, scratch)?;
        Ok(Done::Moved)
    }

    // The same for every code but CHECKPREDICATE.
    fn instruction<C: SigCheck>(
        &mut self,
        ctx: &Context,
        sigs: &C,
        i: &Instruction<'_>,
        size: u64,
        scratch: &mut Vec<u8>,
    ) -> Result<(), StepFault>
        requires other { i.now.code ≢ 0xc0 }
        requires small { self.old.left + held_cost self.old.stack < 2 ^ 63 }
        requires numbers { NumbersFit ctx.now }
        ensures { Follows self.old (rule ctx.now (C.good_of sigs.now) (seen i.now) size self.old.stack.items
            self.old.stack.alt) result self.new }
    {
        match i.code {
            ..=SIXTEEN => self.push_instruction(i),
            ..=FROMALTSTACK => self.control_instruction(i, size),
            ..=TUCK => self.stack_instruction(i.code),
            ..=CATPUSHDATA => self.string_instruction(i.code, scratch),
            ADD_ONE..=WITHIN => self.number_instruction(i.code),
            _ => self.high_instruction(ctx, sigs, i.code, scratch),
        }
    }
}
