//! The instructions of SHA256, of signatures and of what the context gives.
ghost use Rattle.std.specs.Prelude.{◌≡◌, ◌≢◌, ◌<◌, ◌+◌, ◌^◌};
ghost use Rattle.vm_stack.specs.Stacks.{held_cost};
ghost use Rattle.vm_run.specs.Effect.{NumbersFit};
ghost use Rattle.vm_run.specs.Follows.{Follows};
ghost use Rattle.vm_run.specs.Making.{high_rule};

use crate::machine::Machine;
use crate::{Context, StepFault};
use keyed::SigCheck;
use vm_code::codes::{CHECKMULTISIG, CHECKSIG, SHA256};

impl Machine {
    /// The lines of the codes from SHA256 on but CHECKPREDICATE. `scratch` is used for their results.
    #[tactic(auto, unfolding(crate::specs::Making::high_rule))]
    pub fn high_instruction<C: SigCheck>(
        &mut self,
        ctx: &Context,
        sigs: &C,
        code: u8,
        scratch: &mut Vec<u8>,
    ) -> Result<(), StepFault>
        requires other { code ≢ 0xc0 }
        requires numbers { NumbersFit ctx.now }
        requires small { self.old.left + held_cost self.old.stack < 2 ^ 63 }
        ensures { Follows self.old (high_rule ctx.now (C.good_of sigs.now) code self.old.stack.items
            self.old.stack.alt) result self.new }
    {
        match code {
            SHA256 => self.of_string(SHA256, scratch),
            CHECKSIG => self.check_signature(sigs),
            CHECKMULTISIG => self.check_signatures(sigs),
            _ => self.context_instruction(ctx, code),
        }
    }
}
