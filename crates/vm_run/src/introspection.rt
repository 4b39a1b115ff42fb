//! The instructions of what the context gives.
ghost use Rattle.std.specs.Prelude.{◌≡◌, ◌<◌, ◌+◌, ◌≤◌, ◌^◌, List, length, pos, OnOk};
ghost use Rattle.vm_stack.specs.Stacks.{held_cost};
ghost use Rattle.vm_num.specs.Item.{Item, num_bytes};
ghost use Rattle.vm_run.specs.Introspection.{context_rule, on_wanted, output_at, is_output, answer_row};
ghost use Rattle.vm_run.specs.Operands.{IsWanted, AreNumbers};
ghost use Rattle.vm_run.specs.Effect.{NumbersFit, TxFits, Tx, Block, push_row};
ghost use Rattle.vm_run.specs.Follows.{Follows};

use crate::machine::Machine;
use crate::numbers::truth_bytes;
use crate::{BlockContext, Context, OutSeen, StepFault, TxContext};
use keyed::Pile;
use vm_code::codes::{
    AMOUNT, ASSET, BLOCKHASH, BLOCKTIME, CHECKOUTPUT, ENTRYDATA, ENTRYID, INDEX, MAXTIME, MINTIME,
    NEXTPROGRAM, OUTPUTID, PROGRAM, TXDATA, TXSIGHASH,
};
use vm_num::{Failure, read_num, write_num};
use vm_stack::Stack;

impl Machine {
    /// The lines of what the context gives.
    #[tactic(auto, unfolding(crate::specs::Introspection::context_rule))]
    pub fn context_instruction(&mut self, ctx: &Context, code: u8) -> Result<(), StepFault>
        requires numbers { NumbersFit ctx.now }
        requires small { self.old.left + held_cost self.old.stack < 2 ^ 63 }
        ensures { Follows self.old (context_rule ctx.now code self.old.stack.items self.old.stack.alt) result self.new }
    {
        match ctx {
            Context::Block(block) => self.block_instruction(block, code),
            Context::Tx(tx) => self.tx_instruction(tx, code),
            Context::Nothing => Err(StepFault::Failed(match code {
                TXSIGHASH | BLOCKHASH | CHECKOUTPUT..=OUTPUTID | NEXTPROGRAM | BLOCKTIME => {
                    Failure::Context
                }
                _ => Failure::BadOpcode,
            })),
        }
    }

    // The lines of a block.
    #[tactic(auto, unfolding(crate::specs::Introspection::context_rule))]
    fn block_instruction(&mut self, block: &BlockContext, code: u8) -> Result<(), StepFault>
        requires time { block.now.time < 2 ^ 63 }
        requires small { self.old.left + held_cost self.old.stack < 2 ^ 63 }
        ensures { Follows self.old (context_rule (Block block.now) code self.old.stack.items self.old.stack.alt) result
            self.new }
    {
        match code {
            BLOCKHASH => self.add(&block.block_id, 1),
            PROGRAM => self.add(block.program.as_slice(), 1),
            NEXTPROGRAM => self.add(block.next_program.as_slice(), 1),
            BLOCKTIME => self.add_number(block.time),
            TXSIGHASH | CHECKOUTPUT..=OUTPUTID => Err(StepFault::Failed(Failure::Context)),
            _ => Err(StepFault::Failed(Failure::BadOpcode)),
        }
    }

    // The lines of an input of a transaction.
    #[tactic(auto, unfolding(crate::specs::Introspection::context_rule))]
    fn tx_instruction(&mut self, tx: &TxContext, code: u8) -> Result<(), StepFault>
        requires numbers { TxFits tx.now }
        requires small { self.old.left + held_cost self.old.stack < 2 ^ 63 }
        ensures { Follows self.old (context_rule (Tx tx.now) code self.old.stack.items self.old.stack.alt) result
            self.new }
    {
        match code {
            TXSIGHASH => self.add(&tx.sig_hash, 256),
            CHECKOUTPUT => self.check_output(tx),
            ASSET => self.add(&tx.asset, 1),
            AMOUNT => self.add_number(tx.amount),
            PROGRAM => self.add(tx.program.as_slice(), 1),
            MINTIME => self.add_number(tx.mintime),
            MAXTIME => self.add_number(tx.maxtime),
            TXDATA => self.add(&tx.data_hash, 1),
            ENTRYDATA => self.add(&tx.entry_data_hash, 1),
            INDEX => self.add_number(tx.index),
            ENTRYID => self.add(&tx.entry_id, 1),
            OUTPUTID => match &tx.output_id {
                Some(id) => self.add(id, 1),
                None => Err(StepFault::Failed(Failure::Context)),
            },
            BLOCKHASH | NEXTPROGRAM | BLOCKTIME => Err(StepFault::Failed(Failure::Context)),
            _ => Err(StepFault::Failed(Failure::BadOpcode)),
        }
    }

    // Pushes a number.
    fn add_number(&mut self, n: u64) -> Result<(), StepFault>
        requires { n < 2 ^ 63 }
        ensures { Follows self.old (push_row (num_bytes (pos n))) result self.new }
    {
        self.add(write_num(n as i64).as_slice(), 1)
    }

    // The instruction CHECKOUTPUT.
    fn check_output(&mut self, tx: &TxContext) -> Result<(), StepFault>
        requires small { self.old.left + held_cost self.old.stack < 2 ^ 63 }
        ensures { Follows self.old (on_wanted (output_at tx.now) self.old.stack.items self.old.stack.alt) result
            self.new }
    {
        match answer(&self.stack, tx) {
            Ok(holds) => self.put(6, truth_bytes(holds), 16),
            Err(kind) => Err(StepFault::Failed(kind)),
        }
    }
}

// What CHECKOUTPUT answers.
fn answer(stack: &Stack, tx: &TxContext) -> Result<bool, Failure>
    ensures there { OnOk result (6 ≤ length stack.now.items) }
    ensures row { (alt : List Item) → on_wanted (output_at tx.now) stack.now.items alt ≡ answer_row result }
{
    let wanted = read_wanted(stack)?;
    match tx.outs.as_slice().get(wanted.place as usize) {
        Some(out) => Ok(is_output(out, &wanted)),
        None => Err(Failure::BadValue),
    }
}

// What CHECKOUTPUT wants of an output.
#[derive(Clone, Copy)]
struct Wanted<'a> {
    place: u64,
    refdata: &'a [u8],
    amount: u64,
    asset: &'a [u8],
    version_1: bool,
    program: &'a [u8],
}

// The six top items as what an output is wanted to be.
#[tactic(auto, unfolding(crate::specs::Introspection::on_wanted))]
fn read_wanted(stack: &Stack) -> Result<Wanted<'_>, Failure>
    ensures { IsWanted stack.now.items result }
{
    let (Some(place), Some(refdata), Some(amount)) = (stack.item(5), stack.item(4), stack.item(3))
    else {
        return Err(Failure::Underflow);
    };
    let (Some(asset), Some(version), Some(program)) = (stack.item(2), stack.item(1), stack.item(0))
    else {
        return Err(Failure::Underflow);
    };
    match numbers(place, amount, version) {
        Ok((place, amount, version_1)) => Ok(Wanted {
            place,
            refdata,
            amount,
            asset,
            version_1,
            program,
        }),
        Err(kind) => Err(kind),
    }
}

// The place and the amount that items are, and whether the version that one is is 1.
#[tactic(auto, unfolding(crate::specs::Introspection::on_numbers))]
fn numbers(place: &[u8], amount: &[u8], version: &[u8]) -> Result<(u64, u64, bool), Failure>
    ensures { AreNumbers place.now amount.now version.now result }
{
    match (read_num(place), read_num(amount), read_num(version)) {
        (Some(place), Some(amount), Some(version)) if 0 <= place && 0 <= amount => {
            Ok((place as u64, amount as u64, version == 1))
        }
        (Some(_), Some(_), Some(_)) => Err(Failure::BadValue),
        _ => Err(Failure::BadNumber),
    }
}

// Whether an output is as wanted.
fn is_output(out: &OutSeen, wanted: &Wanted<'_>) -> bool
    ensures { result ≡ is_output out.now wanted.now.refdata.now wanted.now.amount wanted.now.asset.now
        wanted.now.version_1 wanted.now.program.now }
{
    !out.retired
        && out.asset.as_slice() == wanted.asset
        && out.amount == wanted.amount
        && wanted.version_1
        && out.program.as_slice() == wanted.program
        && (wanted.refdata.is_empty() || out.data_hash.as_slice() == wanted.refdata)
}
