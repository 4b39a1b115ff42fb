//! A run from a place of a program on.
ghost use Rattle.std.specs.Prelude.{◌<◌, ◌≤◌, ◌+◌, ◌^◌, length, IfOk};
ghost use Rattle.vm_stack.specs.Stacks.{held_cost};
ghost use Rattle.vm_run.specs.Ends.{Ends};
ghost use Rattle.vm_run.specs.Row.{NumbersFit};

use crate::machine::Machine;
use crate::predicate::Opened;
use crate::step::Done;
use crate::{Context, NoMemory, StepFault};
use keyed::{Pile, SigCheck};
use vm_num::Failure;

/// How a run ends.
#[derive(Clone, Copy)]
pub enum End {
    /// At the program's end.
    Ended,
    /// In a failure, at this place.
    Failed { kind: Failure, at: u64 },
}

/// Runs a program from the machine's place on, and leaves the machine as it is at the end. It calls itself for each
/// child.
pub fn run<C: SigCheck>(
    machine: &mut Machine,
    ctx: &Context,
    sigs: &C,
    program: &[u8],
    scratch: &mut Vec<u8>,
) -> Result<End, NoMemory>
    requires place { machine.old.at ≤ length program.now }
    requires small { machine.old.left + held_cost machine.old.stack < 2 ^ 63 }
    requires numbers { NumbersFit ctx.now }
    ensures { IfOk result (λ end. Ends ctx.now (C.good_of sigs.now) program.now machine.old end machine.new) }
{
    while machine.at < program.len() as u64 {
        let at = machine.at;
        match machine.step(ctx, sigs, program, scratch) {
            Ok(Done::Moved) => {}
            Ok(Done::Called) => match machine.open() {
                Ok(Opened { mut child, popped }) => {
                    let Some(called) = popped.item(1) else {
                        unreachable!()
                    };
                    let end = run(&mut child, ctx, sigs, called, scratch)?;
                    machine.close(&child, end)?;
                }
                Err(StepFault::Failed(kind)) => return Ok(End::Failed { kind, at }),
                Err(StepFault::NoMemory) => return Err(NoMemory),
            },
            Err(StepFault::Failed(kind)) => return Ok(End::Failed { kind, at }),
            Err(StepFault::NoMemory) => return Err(NoMemory),
        }
    }
    Ok(End::Ended)
}
