//! Why an instruction does not complete.
ghost use Rattle.std.specs.Prelude.{◌≡◌};

use vm_num::Failure;

/// Why an instruction does not complete.
#[derive(Clone, Copy)]
pub enum StepFault {
    Failed(Failure),
    NoMemory,
}

impl From<Failure> for StepFault {
    ghost use Rattle.vm_run.specs.declared.fault.StepFault.TheVariants as faults;

    ghost from_gives = { λ kind e. e ≡ faults.Failed kind };

    fn from(kind: Failure) -> StepFault {
        StepFault::Failed(kind)
    }
}
