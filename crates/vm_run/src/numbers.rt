//! The instructions that make an item of numbers or of truth values.
ghost use Rattle.std.specs.Prelude.{◌≡◌, ◌<◌, ◌≤◌, ◌≢◌, ◌+◌, ◌^◌, ◌&&◌, ◌||◌, length};
ghost use Rattle.vm_num.specs.Item.{is_true};
ghost use Rattle.vm_ops.specs.Results.{ItemResult, truth_item};
ghost use Rattle.vm_ops.specs.Numbers.{IsNumberCode, number_base, number_count};
ghost use Rattle.vm_stack.specs.Stacks.{held_cost};
ghost use Rattle.vm_run.specs.Effect.{on_two, on_two_numbers};
ghost use Rattle.vm_run.specs.Follows.{Follows};
ghost use Rattle.vm_run.specs.Making.{number_row, number_rule, of_number, of_two_numbers, of_three_numbers};
ghost use Rattle.vm_run.specs.Making.{truth_row, numequalverify_row};

use crate::StepFault;
use crate::machine::Machine;
use crate::operands::{number, three_numbers, top_two, two_numbers};
use vm_code::codes::{BOOLAND, BOOLOR, MAX, MUL, NOT_ZERO, NUMEQUALVERIFY, RSHIFT};
use vm_num::{Failure, Num, truth};
use vm_ops::number_row;

impl Machine {
    /// The lines of the codes 8b to a5.
    #[tactic(auto, unfolding(crate::specs::Making::number_rule))]
    pub fn number_instruction(&mut self, code: u8) -> Result<(), StepFault>
        requires low { 0x8b ≤ code }
        requires high { code ≤ 0xa5 }
        requires small { self.old.left + held_cost self.old.stack < 2 ^ 63 }
        ensures { Follows self.old (number_rule code self.old.stack.items self.old.stack.alt) result self.new }
    {
        match code {
            BOOLAND => self.booland(),
            BOOLOR => self.boolor(),
            NUMEQUALVERIFY => self.numequalverify(),
            ..=NOT_ZERO => self.of_number(code),
            ..=MAX => self.of_two_numbers(code),
            _ => self.of_three_numbers(code),
        }
    }

    fn of_number(&mut self, code: u8) -> Result<(), StepFault>
        requires code { IsNumberCode code }
        requires small { self.old.left + held_cost self.old.stack < 2 ^ 63 }
        ensures { Follows self.old (of_number code self.old.stack.items self.old.stack.alt) result self.new }
    {
        let a = number(&self.stack)?;
        self.put_number(code, 1, number_row(code, a, 0, 0))
    }

    fn of_two_numbers(&mut self, code: u8) -> Result<(), StepFault>
        requires code { IsNumberCode code }
        requires small { self.old.left + held_cost self.old.stack < 2 ^ 63 }
        ensures { Follows self.old (of_two_numbers code self.old.stack.items self.old.stack.alt) result self.new }
    {
        let (a, b) = two_numbers(&self.stack)?;
        self.put_number(code, 2, number_row(code, a, b, 0))
    }

    fn of_three_numbers(&mut self, code: u8) -> Result<(), StepFault>
        requires code { IsNumberCode code }
        requires small { self.old.left + held_cost self.old.stack < 2 ^ 63 }
        ensures { Follows self.old (of_three_numbers code self.old.stack.items self.old.stack.alt) result self.new }
    {
        let (a, b, c) = three_numbers(&self.stack)?;
        self.put_number(code, 3, number_row(code, a, b, c))
    }

    // Pays for what an instruction on numbers gives in the place of the top n items, and puts it there.
    fn put_number(&mut self, code: u8, n: u64, rule: Result<Num, Failure>) -> Result<(), StepFault>
        requires there { n ≤ length self.old.stack.items }
        requires small { self.old.left + held_cost self.old.stack < 2 ^ 63 }
        ensures { Follows self.old (number_row code n rule) result self.new }
    {
        match rule {
            Ok(item) => self.put(n, item.as_slice(), base(code)),
            Err(kind) => Err(StepFault::Failed(kind)),
        }
    }

    fn booland(&mut self) -> Result<(), StepFault>
        requires small { self.old.left + held_cost self.old.stack < 2 ^ 63 }
        ensures { Follows self.old (on_two (λ a b. truth_row (is_true a && is_true b)) self.old.stack.items
            self.old.stack.alt) result self.new }
    {
        let (a, b) = top_two(&self.stack)?;
        let holds = truth(a) && truth(b);
        self.put(2, truth_bytes(holds), 2)
    }

    fn boolor(&mut self) -> Result<(), StepFault>
        requires small { self.old.left + held_cost self.old.stack < 2 ^ 63 }
        ensures { Follows self.old (on_two (λ a b. truth_row (is_true a || is_true b)) self.old.stack.items
            self.old.stack.alt) result self.new }
    {
        let (a, b) = top_two(&self.stack)?;
        let holds = truth(a) || truth(b);
        self.put(2, truth_bytes(holds), 2)
    }

    fn numequalverify(&mut self) -> Result<(), StepFault>
        requires small { self.old.left + held_cost self.old.stack < 2 ^ 63 }
        ensures { Follows self.old (on_two_numbers numequalverify_row self.old.stack.items self.old.stack.alt) result
            self.new }
    {
        let (a, b) = two_numbers(&self.stack)?;
        if a == b {
            self.pop(2, 2)
        } else {
            Err(StepFault::Failed(Failure::VerifyFalse))
        }
    }
}

/// The item of a comparison.
pub fn truth_bytes(holds: bool) -> &'static [u8]
    ensures { result.now ≡ truth_item holds }
{
    if holds { &[1] } else { &[] }
}

fn base(code: u8) -> u64
    ensures { result ≡ number_base code }
{
    match code {
        MUL..=RSHIFT => 8,
        _ => 2,
    }
}
