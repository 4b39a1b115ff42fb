//! A program run on its arguments, and how that ends.
ghost use Rattle.std.specs.Prelude.{◌≡◌, ◌+◌, ◌-◌, ◌<◌, ◌≤◌, ◌^◌, [], min, reverse, IfOk};
ghost use Rattle.vm_num.specs.Item.{total_cost};
ghost use Rattle.vm_run.specs.Ends.{VerdictFrom, VerdictOf};
ghost use Rattle.vm_run.specs.Row.{NumbersFit};
ghost use Rattle.vm_run.specs.Run.{Outcome, count_of};
ghost use Rattle.vm_run.specs.Verdict.{RunOn, HasVerdict};

use crate::machine::Machine;
use crate::operands::top_is_true;
use crate::run::{End, run};
use crate::{Context, NoMemory};
use keyed::SigCheck;
use std::alloc::Global;
use vm_num::Failure;
use vm_stack::Stack;
use wire::{Args, Bytes};

/// How a program ends on its arguments.
#[derive(Clone, Copy, Debug, PartialEq, Eq)]
pub enum Verdict {
    /// With a true item on top of the stack, and this much of the run limit left.
    Succeeded { left: u64 },
    /// In a failure, at this place of the program; where it ends without a true item on top, at its length.
    Failed { kind: Failure, at: u64 },
}

/// Runs a program on its arguments, the first of them deepest, in a context and under a run limit of at most 100,000.
/// The arguments are paid for first; where the limit does not cover them, the program fails with `RunLimit` at 0.
/// `sigs` says which signatures are good.
///
/// A program that a program calls is run by a call, on the system's stack. The limit bounds how deep that goes, which
/// is why there is a greatest one.
pub fn verify<C: SigCheck>(
    alloc: Global,
    ctx: &Context,
    sigs: &C,
    program: &[u8],
    args: &Args,
    limit: u64,
) -> Result<Verdict, NoMemory>
    requires limit { limit ≤ 100000 }
    requires numbers { NumbersFit ctx.now }
    ensures verdict { IfOk result (HasVerdict ctx.now (C.good_of sigs.now) program.now args.now limit) }

    // No more instructions complete than the limit says, over all nested predicates together.
    ensures bounded { total_cost args.now ≤ limit
        → (outcome : Outcome)
        → RunOn ctx.now (C.good_of sigs.now) program.now args.now limit outcome
        → count_of outcome ≤ limit }
{
    let cost = cost_of(args.as_slice());
    if limit < cost {
        return Ok(Verdict::Failed {
            kind: Failure::RunLimit,
            at: 0,
        });
    }
    start(alloc, ctx, sigs, program, args, limit - cost)
}

// Runs a program from its start on arguments that are paid for, with this much of the limit left.
fn start<C: SigCheck>(
    alloc: Global,
    ctx: &Context,
    sigs: &C,
    program: &[u8],
    args: &Args,
    left: u64,
) -> Result<Verdict, NoMemory>
    requires small { left + total_cost args.now < 2 ^ 63 }
    requires numbers { NumbersFit ctx.now }
    ensures { IfOk result (VerdictFrom ctx.now (C.good_of sigs.now) program.now (reverse args.now) left) }
{
    let mut machine = Machine {
        stack: pile(alloc, args.as_slice())?,
        left,
        at: 0,
    };
    let mut scratch = Vec::new(alloc);
    let end = run(&mut machine, ctx, sigs, program, &mut scratch)?;
    Ok(verdict_on(end, &machine, program.len() as u64))
}

// A data stack of copies of these items, the first of them deepest.
fn pile(alloc: Global, items: &[Bytes]) -> Result<Stack, NoMemory>
    ensures { IfOk result (λ s. s ≡ record { items = reverse items.now; alt = [] }) }
{
    let mut stack = Stack::new(alloc);
    for item in items {
        if stack.push(item.as_slice()).is_err() {
            return Err(NoMemory);
        }
    }
    Ok(stack)
}

// What items cost; 2^64 - 1 where it is more.
fn cost_of(items: &[Bytes]) -> u64
    ensures { result ≡ min (total_cost items.now) (2 ^ 64 - 1) }
{
    let mut total = 0u64;
    for item in items {
        total = total
            .saturating_add(item.as_slice().len() as u64)
            .saturating_add(8);
    }
    total
}

// The verdict on a program of this length.
fn verdict_on(end: End, machine: &Machine, size: u64) -> Verdict
    ensures { VerdictOf size end machine.now result }
{
    match end {
        End::Failed { kind, at } => Verdict::Failed { kind, at },
        End::Ended if top_is_true(&machine.stack) => Verdict::Succeeded { left: machine.left },
        End::Ended => Verdict::Failed {
            kind: Failure::FalseResult,
            at: size,
        },
    }
}
