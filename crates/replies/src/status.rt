//! The status that a call ends with.
ghost use Rattle.std.specs.Prelude.{◌≡◌, ◌≤◌, List, [], ◌∷◌, ◌++◌, Some};
ghost use Rattle.outside.specs.Steps.{Step, Print};
ghost use Rattle.outside.specs.World.{Io};
ghost use Rattle.replies.specs.Answer.{HasStatus};
ghost use Rattle.replies.specs.Ending.{Ended, Stops};
ghost use Rattle.replies.specs.Plan.{Plan, Does, Went};
ghost use Rattle.replies.specs.Reply.{Reply, reply_of, usage_reply};
ghost use Rattle.replies.specs.Steps.{Begun, AllDone};

use crate::calls::say;
use crate::stop::Stop;
use outside::Outside;

/// The command was done.
const DONE: u8 = 0;
/// The words are outside the grammar.
const USAGE: u8 = 1;
/// The command refused.
const REFUSED: u8 = 2;
/// A read of a file failed.
const READ_FAULT: u8 = 3;
/// A write to a file or to the sink failed.
const WRITE_FAULT: u8 = 4;
/// Memory ran out.
const NO_MEMORY: u8 = 5;

const USAGE_LINE: &[u8] = b"usage\n";

/// Ends a call whose command came so far: prints the line of a refusal, and gives the status. It is 0 where the command
/// was done, 2 where it refused, 3 where a read failed, 4 where an append, a replace or a print failed, 5 where memory
/// ran out.
pub fn close<O: Outside>(outcome: Result<(), Stop>, out: &mut O) -> u8
    ensures { (plan : Plan) (start : Io)
        → Does plan start (O.io out.old) outcome
        → Ended (reply_of plan) start (O.io out.new) result }
{
    match outcome {
        Ok(()) => DONE,
        Err(stop) => close_at(stop, out),
    }
}

// Ends a call whose command stopped for this.
fn close_at<O: Outside>(stop: Stop, out: &mut O) -> u8
    ensures { (plan : Plan) (start : Io)
        → Went plan start (O.io out.old) (Some stop)
        → Ended (reply_of plan) start (O.io out.new) result }
{
    match stop {
        Stop::Refused(line) => print_last(out, line.as_bytes(), REFUSED),
        stop => status_of_stop(&stop),
    }
}

/// Ends a call whose words are outside the grammar: prints that, and gives the status 1, or 4 where the print failed
/// and 5 where memory ran out.
pub fn usage<O: Outside>(out: &mut O) -> u8
    ensures { Ended usage_reply (O.io out.old) (O.io out.new) result }
{
    print_last(out, USAGE_LINE, USAGE)
}

/// Ends a call where memory ran out before its first step: gives the status 5.
pub fn out_of_memory() -> u8
    ensures { (reply : Reply) (io : Io) → Ended reply io io result }
{
    NO_MEMORY
}

// Prints the last line of a reply of this status, whose other steps were done.
fn print_last<O: Outside>(out: &mut O, line: &[u8], status: u8) -> u8
    requires { status ≤ 2 }
    ensures { (steps : List Step) (start : Io)
        → (O.io out.old).refs ≡ start.refs
        → AllDone steps start.world (O.io out.old).world
        → Ended (record { status = status; steps = steps ++ Print line.now ∷ [] }) start (O.io out.new) result }
{
    match say(out, line) {
        Ok(()) => status,
        Err(stop) => status_of_stop(&stop),
    }
}

// The status of a call that stopped.
fn status_of_stop(stop: &Stop) -> u8
    ensures { (reply : Reply) (begun : Begun) → Stops stop.now reply begun → HasStatus reply begun result }
{
    match stop {
        Stop::Refused(_) => REFUSED,
        Stop::ReadFault => READ_FAULT,
        Stop::WriteFault => WRITE_FAULT,
        Stop::NoMemory => NO_MEMORY,
    }
}
