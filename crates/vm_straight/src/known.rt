//! The laws of the crates below.
ghost use Rattle.vm_straight.specs.Known.{Known};

use vm_code::laws::{codes_read_back, readings};
use vm_num::laws::numbers_read_back;
use vm_ops::laws::truth_reads_back;
use vm_run::laws::{lines, one_outcome, pushes_read_back, some_outcome};

/// The laws of the crates below, for the proofs of this one. It does nothing when it runs.
pub(crate) fn known()
    ensures { Known }
{
    some_outcome();
    one_outcome();
    pushes_read_back();
    codes_read_back();
    readings();
    numbers_read_back();
    truth_reads_back();
    lines();
}
