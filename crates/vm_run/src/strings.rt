//! The instructions that make an item of strings of bytes.
ghost use Rattle.std.specs.Prelude.{◌≡◌, ◌<◌, ◌≤◌, ◌+◌, ◌^◌, [], pos};
ghost use Rattle.vm_ops.specs.Bytes.{IsBytesCode, bytes_base, bytes_result};
ghost use Rattle.vm_stack.specs.Stacks.{held_cost};
ghost use Rattle.vm_run.specs.Effect.{on_one, on_two};
ghost use Rattle.vm_run.specs.Follows.{Follows, Makes};
ghost use Rattle.vm_run.specs.Making.{string_rule, of_string, of_two_strings, of_size, of_part, size_row};
ghost use Rattle.vm_run.specs.Making.{equalverify_row};

use crate::StepFault;
use crate::machine::Machine;
use crate::numbers::truth_bytes;
use crate::operands::{part, sized, top, top_two};
use vm_code::codes::{
    AND, CAT, CATPUSHDATA, EQUAL, EQUALVERIFY, INVERT, LEFT, OR, RIGHT, SHA256, SIZE, SUBSTR, XOR,
};
use vm_num::{Failure, write_num};
use vm_ops::{RowFault, bytes_row};

impl Machine {
    /// The lines of the codes 7e to 89. `scratch` is used for their results.
    #[tactic(auto, unfolding(crate::specs::Making::string_rule))]
    pub fn string_instruction(&mut self, code: u8, scratch: &mut Vec<u8>) -> Result<(), StepFault>
        requires small { self.old.left + held_cost self.old.stack < 2 ^ 63 }
        ensures { Follows self.old (string_rule code self.old.stack.items self.old.stack.alt) result self.new }
    {
        match code {
            CAT => self.of_two_strings(CAT, scratch),
            SUBSTR => self.of_part(SUBSTR, scratch),
            LEFT => self.of_size(LEFT, scratch),
            RIGHT => self.of_size(RIGHT, scratch),
            SIZE => self.size(),
            INVERT => self.of_string(INVERT, scratch),
            AND => self.of_two_strings(AND, scratch),
            OR => self.of_two_strings(OR, scratch),
            XOR => self.of_two_strings(XOR, scratch),
            EQUAL => self.equal(),
            EQUALVERIFY => self.equalverify(),
            CATPUSHDATA => self.of_two_strings(CATPUSHDATA, scratch),
            _ => Err(StepFault::Failed(Failure::BadOpcode)),
        }
    }

    /// The instruction of a code that takes one string, INVERT or SHA256.
    pub fn of_string(&mut self, code: u8, scratch: &mut Vec<u8>) -> Result<(), StepFault>
        requires code { IsBytesCode code }
        requires small { self.old.left + held_cost self.old.stack < 2 ^ 63 }
        ensures { Follows self.old (of_string code self.old.stack.items self.old.stack.alt) result self.new }
    {
        let a = top(&self.stack)?;
        let base = make(code, a, &[], 0, 0, scratch)?;
        self.put(1, scratch.as_slice(), base)
    }

    fn of_two_strings(&mut self, code: u8, scratch: &mut Vec<u8>) -> Result<(), StepFault>
        requires code { IsBytesCode code }
        requires small { self.old.left + held_cost self.old.stack < 2 ^ 63 }
        ensures { Follows self.old (of_two_strings code self.old.stack.items self.old.stack.alt) result self.new }
    {
        let (a, b) = top_two(&self.stack)?;
        let base = make(code, a, b, 0, 0, scratch)?;
        self.put(2, scratch.as_slice(), base)
    }

    fn of_size(&mut self, code: u8, scratch: &mut Vec<u8>) -> Result<(), StepFault>
        requires code { IsBytesCode code }
        requires small { self.old.left + held_cost self.old.stack < 2 ^ 63 }
        ensures { Follows self.old (of_size code self.old.stack.items self.old.stack.alt) result self.new }
    {
        let (a, size) = sized(&self.stack)?;
        let base = make(code, a, &[], 0, size, scratch)?;
        self.put(2, scratch.as_slice(), base)
    }

    fn of_part(&mut self, code: u8, scratch: &mut Vec<u8>) -> Result<(), StepFault>
        requires code { IsBytesCode code }
        requires small { self.old.left + held_cost self.old.stack < 2 ^ 63 }
        ensures { Follows self.old (of_part code self.old.stack.items self.old.stack.alt) result self.new }
    {
        let (a, from, size) = part(&self.stack)?;
        let base = make(code, a, &[], from, size, scratch)?;
        self.put(3, scratch.as_slice(), base)
    }

    fn size(&mut self) -> Result<(), StepFault>
        requires small { self.old.left + held_cost self.old.stack < 2 ^ 63 }
        ensures { Follows self.old (on_one size_row self.old.stack.items self.old.stack.alt) result self.new }
    {
        let size = write_num(top(&self.stack)?.len() as i64);
        self.add(size.as_slice(), 1)
    }

    #[tactic(auto, unfolding(vm_ops::specs::Bytes::bytes_result))]
    fn equal(&mut self) -> Result<(), StepFault>
        requires small { self.old.left + held_cost self.old.stack < 2 ^ 63 }
        ensures { Follows self.old (of_two_strings 0x87 self.old.stack.items self.old.stack.alt) result self.new }
    {
        let (a, b) = top_two(&self.stack)?;
        let base = 1 + a.len().min(b.len()) as u64;
        let same = a == b;
        self.put(2, truth_bytes(same), base)
    }

    fn equalverify(&mut self) -> Result<(), StepFault>
        requires small { self.old.left + held_cost self.old.stack < 2 ^ 63 }
        ensures { Follows self.old (on_two equalverify_row self.old.stack.items self.old.stack.alt) result self.new }
    {
        let (a, b) = top_two(&self.stack)?;
        let base = 1 + a.len().min(b.len()) as u64;
        if a == b {
            self.pop(2, base)
        } else {
            Err(StepFault::Failed(Failure::VerifyFalse))
        }
    }
}

// Makes the item of an instruction, and gives its base cost.
fn make(
    code: u8,
    a: &[u8],
    b: &[u8],
    from: i64,
    size: i64,
    out: &mut Vec<u8>,
) -> Result<u64, StepFault>
    requires { IsBytesCode code }
    ensures { Makes code a.now b.now (bytes_result code a.now b.now from size) result out.new.items }
{
    out.clear();
    match bytes_row(code, a, b, from, size, out) {
        Ok(()) => Ok(base(code, a, b, out.as_slice())),
        Err(RowFault::Row(kind)) => Err(StepFault::Failed(kind)),
        Err(RowFault::NoMemory) => Err(StepFault::NoMemory),
    }
}

fn base(code: u8, a: &[u8], b: &[u8], item: &[u8]) -> u64
    ensures { result ≡ bytes_base code a.now b.now item.now }
{
    match code {
        INVERT => 1 + a.len() as u64,
        AND => 1 + a.len().min(b.len()) as u64,
        OR => 1 + a.len().max(b.len()) as u64,
        XOR => 1 + a.len().max(b.len()) as u64,
        EQUAL => 1 + a.len().min(b.len()) as u64,
        SHA256 => a.len().max(64) as u64,
        _ => 4 + item.len() as u64,
    }
}
