//! The instructions of signatures.
ghost use Rattle.std.specs.Prelude.{◌≡◌, ◌<◌, ◌≤◌, ◌+◌, ◌*◌, ◌^◌, [], length, drop, max, nat_eq, nat_lt, ◌&&◌, ◌||◌};
ghost use Rattle.std.specs.Prelude.{slice_index_or};
ghost use Rattle.vm_stack.specs.Stacks.{held_cost};
ghost use Rattle.vm_run.specs.Effect.{on_three};
ghost use Rattle.vm_run.specs.Follows.{Follows};
ghost use Rattle.vm_run.specs.Signing.{by_counts, signature_row, signatures_row, signatures_effect};
ghost use Rattle.vm_run.specs.Operands.{AreThree, AreCounts};

use crate::StepFault;
use crate::machine::Machine;
use crate::numbers::truth_bytes;
use keyed::{Pile, SigCheck};
use vm_num::{Failure, read_num};
use vm_ops::multi_good;
use vm_stack::Stack;

// The items of a data stack below its two top items.
#[derive(Clone, Copy)]
struct Below<'a> {
    stack: &'a Stack,
}

impl<'a> Pile for Below<'a> {
    ghost use Rattle.std.specs.Prelude.{drop};

    ghost items_of = { λ below. drop 2 below.stack.now.items };

    fn item(&self, k: u64) -> Option<&[u8]> {
        if self.stack.depth() <= 2 || self.stack.depth() - 2 <= k {
            return None;
        }
        self.stack.item(k + 2)
    }
}

impl Machine {
    /// The instruction CHECKSIG.
    pub fn check_signature<C: SigCheck>(&mut self, sigs: &C) -> Result<(), StepFault>
        requires small { self.old.left + held_cost self.old.stack < 2 ^ 63 }
        ensures { Follows self.old (on_three (signature_row (C.good_of sigs.now)) self.old.stack.items
            self.old.stack.alt) result self.new }
    {
        let (sig, msg, key) = three(&self.stack)?;
        if msg.len() != 32 {
            return Err(StepFault::Failed(Failure::BadValue));
        }
        if self.left < 1024 {
            return Err(StepFault::Failed(Failure::RunLimit));
        }
        let good = sigs.good(key, msg, sig);
        self.put(3, truth_bytes(good), 1024)
    }

    /// The instruction CHECKMULTISIG.
    pub fn check_signatures<C: SigCheck>(&mut self, sigs: &C) -> Result<(), StepFault>
        requires small { self.old.left + held_cost self.old.stack < 2 ^ 63 }
        ensures { Follows self.old (by_counts (signatures_row (C.good_of sigs.now)) self.old.stack.items
            self.old.stack.alt) result self.new }
    {
        let (m, n) = counts(&self.stack)?;
        self.counted_signatures(sigs, m, n)
    }

    // The instruction CHECKMULTISIG where the two items on top are these counts.
    fn counted_signatures<C: SigCheck>(&mut self, sigs: &C, m: u64, n: u64) -> Result<(), StepFault>
        requires there { 2 ≤ length self.old.stack.items }
        requires signatures { m < 2 ^ 63 }
        requires keys { n < 2 ^ 63 }
        requires small { self.old.left + held_cost self.old.stack < 2 ^ 63 }
        ensures { Follows self.old (signatures_row (C.good_of sigs.now) m n (drop 2 self.old.stack.items)) result
            self.new }
    {
        if misfit(m, n) {
            return Err(StepFault::Failed(Failure::BadValue));
        }
        if self.stack.depth() - 2 < n + 1 + m {
            return Err(StepFault::Failed(Failure::Underflow));
        }
        if !is_message(&self.stack, n + 2) {
            return Err(StepFault::Failed(Failure::BadValue));
        }
        self.pay_signatures(sigs, m, n)
    }

    // Pays for checks by n keys and says whether m signatures are good; nothing is checked before it is paid for.
    fn pay_signatures<C: SigCheck>(&mut self, sigs: &C, m: u64, n: u64) -> Result<(), StepFault>
        requires counts { m ≤ n }
        requires there { n + m + 3 ≤ length self.old.stack.items }
        requires small { self.old.left + held_cost self.old.stack < 2 ^ 63 }
        ensures { Follows self.old (signatures_effect (C.good_of sigs.now) m n (drop 2 self.old.stack.items)) result
            self.new }
    {
        let base = base(n);
        if self.left < base {
            return Err(StepFault::Failed(Failure::RunLimit));
        }
        let good = multi_good(sigs, &Below { stack: &self.stack }, m, n);
        self.put(n + m + 3, truth_bytes(good), base)
    }
}

// Whether so many signatures cannot be of different keys of so many, or there are keys and no signature.
fn misfit(m: u64, n: u64) -> bool
    ensures { result ≡ (nat_lt n m || nat_eq m 0 && nat_lt 0 n) }
{
    n < m || m == 0 && 0 < n
}

// Whether the item k below the top is there and has the 32 bytes of a message.
fn is_message(stack: &Stack, k: u64) -> bool
    ensures { result ≡ nat_eq (length (slice_index_or stack.now.items k [])) 32 }
{
    match stack.item(k) {
        Some(item) => item.len() == 32,
        None => false,
    }
}

// What checks of signatures by so many keys cost; 2^64 - 1 where it is more.
fn base(n: u64) -> u64
    ensures most { result ≤ max 1 (1024 * n) }
    ensures exact { result < 2 ^ 63 → result ≡ max 1 (1024 * n) }
{
    n.saturating_mul(1024).max(1)
}

// The three top items, the deepest first.
fn three(stack: &Stack) -> Result<(&[u8], &[u8], &[u8]), Failure>
    ensures { AreThree stack.now.items result }
{
    match (stack.item(2), stack.item(1), stack.item(0)) {
        (Some(a), Some(b), Some(c)) => Ok((a, b, c)),
        _ => Err(Failure::Underflow),
    }
}

// The two top items as counts, the deeper first.
fn counts(stack: &Stack) -> Result<(u64, u64), Failure>
    ensures { AreCounts stack.now.items result }
{
    match (stack.item(1), stack.item(0)) {
        (Some(m), Some(n)) => match (read_num(m), read_num(n)) {
            (Some(m), Some(n)) if 0 <= m && 0 <= n => Ok((m as u64, n as u64)),
            (Some(_), Some(_)) => Err(Failure::BadValue),
            _ => Err(Failure::BadNumber),
        },
        _ => Err(Failure::Underflow),
    }
}
